//! The next bits of a message, gathered in one number. Keeps the rule "bit order of a field".

ghost use Rattle.std.specs.Prelude.{◌≡◌, ◌+◌, ◌*◌, ◌<◌, ◌≤◌, ◌^◌, length, take, drop, MatchOption};
ghost use Rattle.q3_bits.specs.Bits.{bits_of, number_of};

/// The next bits, so many, as a number, the first of them least, and the bytes after them.
#[derive(Clone, Copy)]
pub(crate) struct Ahead<'a> {
    pub(crate) bits: u64,
    pub(crate) count: u64,
    pub(crate) rest: &'a [u8],
    ghost few: { count < 64 },
    ghost fits: { bits < 2 ^ count },
}

/// A run of marks: how many are 0, and how many bits it has.
#[derive(Clone, Copy)]
pub(crate) struct Marks {
    pub(crate) zeros: u32,
    pub(crate) length: u64,
}

impl<'a> Ahead<'a> {
    ghost use Rattle.std.specs.Prelude.{◌↔◌, ◌⊎◌, ◌-◌, ◌/◌, IsTrue, IfSome, IfNone, Ok, Err, min};
    ghost use Rattle.q3_bits.specs.Words.{run_at};
    ghost use Rattle.q3_bits.specs.declared.reader.ReadError.TheVariants.{End};
    ghost use Rattle.q3_bits.specs.Unread.{bits_ahead, IsFull};

    /// All bits of these bytes, of which none is gathered.
    pub(crate) fn new(bytes: &'a [u8]) -> Ahead<'a>
        ensures { bits_ahead result ≡ bits_of bytes.now }
    {
        Ahead {
            bits: 0,
            count: 0,
            rest: bytes,
        }
    }

    /// The same, made anew field by field, for the reader that a loop has of its own: by `Copy`, which serves everywhere else, it is
    /// copied as memory, and a loop over bytes then takes some 4% more instructions.
    #[inline(always)]
    pub(crate) fn copy(&self) -> Ahead<'a>
        ensures { bits_ahead result ≡ bits_ahead self.now }
    {
        Ahead {
            bits: self.bits,
            count: self.count,
            rest: self.rest,
        }
    }

    /// How many bytes more there is room for.
    #[inline(always)]
    fn room(&self) -> u64
        ensures { result ≡ 7 - self.now.count / 8 }
    {
        7 - self.count / 8
    }

    /// Gathers as many bytes more as there is room for, also of the last seven. It isn't inlined: `fuller` is the half that is.
    #[inline(never)]
    pub(crate) fn refill(&mut self)
        ensures bits { bits_ahead self.new ≡ bits_ahead self.old }
        ensures full { (56 ≤ self.new.count) ⊎ (length self.new.rest.now ≡ 0) }
    {
        // all but the last seven of a message's bytes have seven after them
        match first_eight(self.rest) {
            Some(word) => *self = self.with(word, self.room()),
            None => self.refill_last(),
        }
    }

    /// The same, with as many bytes more gathered as there is room for, where eight are left: the half of `refill` that is
    /// inlined, and takes and gives a value, so that a loop keeps it in registers.
    #[inline(always)]
    pub(crate) fn fuller(self) -> Ahead<'a>
        ensures { bits_ahead result ≡ bits_ahead self.entry }
    {
        match first_eight(self.rest) {
            Some(word) => self.with(word, self.room()),
            None => self,
        }
    }

    /// The same of fewer than eight bytes.
    #[cold]
    #[inline(never)]
    fn refill_last(&mut self)
        requires last { length self.old.rest.now < 8 }
        ensures bits { bits_ahead self.new ≡ bits_ahead self.old }
        ensures full { (56 ≤ self.new.count) ⊎ (length self.new.rest.now ≡ 0) }
    {
        let more = self.room().min(self.rest.len() as u64);
        *self = self.with(last_seven(self.rest), more);
    }

    /// The same, with the next bytes gathered, so many: `word` is the number that the first eight spell.
    #[inline(always)]
    fn with(self, word: u64, more: u64) -> Ahead<'a>
        requires word { word ≡ number_of (take 64 (bits_of self.rest.now)) }
        requires room { self.count + 8 * more < 64 }
        requires there { more ≤ length self.rest.now }
        ensures bits { bits_ahead result ≡ bits_ahead self.entry }
        ensures count { result.count ≡ self.entry.count + 8 * more }
        ensures rest { length result.rest.now ≡ length self.entry.rest.now - more }
    {
        let next = word % (1 << (8 * more));
        Ahead {
            bits: self.bits + (next << self.count),
            count: self.count + 8 * more,
            rest: bytes_after(self.rest, more as usize),
        }
    }

    /// The same, with more gathered where fewer than 25 bits are: no word of a code has as many.
    pub(crate) fn ready(self) -> Ahead<'a>
        ensures bits { bits_ahead result ≡ bits_ahead self.entry }
        ensures full { IsFull result }
    {
        let mut ready = self;
        if self.count < 25 {
            ready.refill();
        }
        ready
    }

    /// Whether so many bits are left.
    pub(crate) fn has(self, count: u64) -> bool
        requires full { IsFull self }
        requires few { count ≤ 24 }
        ensures gathered { IsTrue result ↔ (count ≤ self.entry.count) }
        ensures left { (count ≤ self.entry.count → count ≤ length (bits_ahead self.entry))
            × (count ≤ length (bits_ahead self.entry) → count ≤ self.entry.count) }
    {
        count <= self.count
    }

    /// How many bits are left, and 25 where more are.
    pub(crate) fn left(self) -> u32
        requires { IsFull self }
        ensures left { result ≡ min 25 (length (bits_ahead self.entry)) }
        ensures gathered { result ≤ self.entry.count }
    {
        self.count.min(25) as u32
    }

    /// The number that the next 24 bits spell, with zeros after the last.
    pub(crate) fn window(self) -> u32
        requires { IsFull self }
        ensures bits { result ≡ number_of (take 24 (bits_ahead self.entry)) }
        ensures fits { result < 2 ^ 24 }
    {
        (self.bits % (1 << 24)) as u32
    }

    /// The run of marks that is next, up to a limit, where its bits were gathered.
    #[inline(always)]
    pub(crate) fn run(self, limit: u32) -> Option<Marks>
        ensures found { IfSome result (λ run. run_at limit (bits_ahead self.entry) ≡ Ok
            (run.zeros, drop run.length (bits_ahead self.entry))) }
        ensures gathered { IfSome result (λ run. (run.zeros ≤ limit) × (run.length ≤ self.entry.count)) }
        ensures none { IfNone result (limit ≤ 56 → (56 ≤ self.entry.count) ⊎ (length self.entry.rest.now ≡ 0)
            → run_at limit (bits_ahead self.entry) ≡ Err End) }
    {
        let zeros = self.bits.trailing_zeros();
        let length = (zeros + 1).min(limit) as u64;
        if length > self.count {
            return None;
        }
        let zeros = zeros.min(limit);
        Some(Marks { zeros, length })
    }

    /// What follows the next bits, so many.
    #[inline(always)]
    pub(crate) fn skip(self, count: u64) -> Ahead<'a>
        requires { count ≤ self.count }
        ensures { bits_ahead result ≡ drop count (bits_ahead self.entry) }
    {
        Ahead {
            bits: self.bits >> count,
            count: self.count - count,
            rest: self.rest,
        }
    }
}

/// What follows so many bytes.
fn bytes_after(bytes: &[u8], count: usize) -> &[u8]
    requires { count ≤ length bytes.now }
    ensures { result.now ≡ drop count bytes.now }
{
    &bytes[count..]
}

/// The number that the bits of the first eight bytes spell; nothing where there are fewer.
fn first_eight(bytes: &[u8]) -> Option<u64>
    ensures { MatchOption result (length bytes.now < 8) (λ word. (8 ≤ length bytes.now)
        × (word ≡ number_of (take 64 (bits_of bytes.now)))) }
{
    if let [a, b, c, d, e, f, g, h, ..] = bytes {
        return Some(u64::from_le_bytes([*a, *b, *c, *d, *e, *f, *g, *h]));
    }
    None
}

/// The number that the bits of fewer than eight bytes spell.
#[cold]
#[inline(never)]
fn last_seven(bytes: &[u8]) -> u64
    ensures { result ≡ number_of (take 64 (bits_of bytes.now)) }
{
    let high = first_four(bytes_after(bytes, bytes.len().min(4)));
    u64::from(first_four(bytes)) + (u64::from(high) << 32)
}

/// The number that the bits of the first four bytes spell, with zeros after the last byte.
fn first_four(bytes: &[u8]) -> u32
    ensures { result ≡ number_of (take 32 (bits_of bytes.now)) }
{
    match bytes {
        [a, b, c, d, ..] => u32::from_le_bytes([*a, *b, *c, *d]),
        [a, b, c] => u32::from_le_bytes([*a, *b, *c, 0]),
        [a, b] => u32::from_le_bytes([*a, *b, 0, 0]),
        [a] => u32::from_le_bytes([*a, 0, 0, 0]),
        _ => 0,
    }
}
