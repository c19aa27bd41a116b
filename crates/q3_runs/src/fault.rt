//! Why a run ended early: its fault line and its status.

ghost use Rattle.std.specs.Prelude.{◌≡◌, [], ◌∷◌, codes};
ghost use Rattle.std.specs.List.{concat};
ghost use Rattle.q3_io.specs.Faults.{HasCause};
ghost use Rattle.q3_io.specs.Written.{Adds};
ghost use Rattle.q3_runs.specs.Lines.{fault_line, fault_status, cause_word, key_line, text_line, code_line, profile_line, record_line, illegible_text, demo_line, index_line};
ghost use Rattle.q3_svmsg.specs.Report as report_spec;

use q3_bits::{CodeError, NoMemory};
use q3_demo::DemoError;
use q3_index::{IndexError, SeekError};
use q3_io::{Failed, Piece, Sink, print_all};
use q3_node::NodeError;
use q3_profile::{Key, ProfileError};
use q3_script::ScriptError;
use q3_svmsg::{Illegible, cause_number};
use q3_words::LineCause;

/// Why a run ended early.
#[derive(Clone, Copy, Debug, PartialEq, Eq)]
pub enum Fault {
    /// Want of memory.
    NoMemory,
    /// The words are no command line.
    Usage,
    /// The files' count of faults rose in this run.
    Read,
    /// The sink's count of faults rose in this run.
    Write,
    /// The files' count of failed writes rose in this run.
    FileWrite,
    /// The profile's first rule that fails.
    Profile(ProfileError),
    /// The script's first bad line, counted from 1, 0 for the whole file, and its first cause.
    Script { line: u32, cause: LineCause },
    /// The wire's count of faults rose in this run.
    Wire,
    /// A node's turns are spent, and none of them did `end`.
    Turns,
    /// The demo's first record that is refused, with its place, and why; or the demo's end before as many records as are sought.
    Demo(DemoError),
    /// The index is none, or keeps another length of the demo, another mark of the profile or other bits of an entity's number.
    Index(IndexError),
    /// The index counts fewer records, so many.
    PastEnd(u32),
}

impl Fault {
    /// The status of the process.
    pub fn status(self) -> u8
        ensures { result ≡ fault_status self }
    {
        match self {
            Fault::NoMemory => 1,
            Fault::Usage => 2,
            Fault::Read => 3,
            Fault::Write => 4,
            Fault::FileWrite => 4,
            Fault::Profile(_) => 5,
            Fault::Script { .. } => 6,
            Fault::Demo(_) => 7,
            Fault::Index(_) => 8,
            Fault::Wire => 9,
            Fault::PastEnd(_) => 10,
            Fault::Turns => 11,
        }
    }

    /// Prints the fault line; none is asked for where the sink failed.
    pub fn print<O: Sink>(self, out: &mut O) -> Result<(), Failed>
        ensures adds { Adds (O.written out.old) (O.written out.new) (fault_line self) result }
        ensures cause { HasCause (O.faults out.old) (O.faults out.new) result }
    {
        match self {
            Fault::NoMemory => print_all(&[Piece::Text(b"no memory\n")], out),
            Fault::Usage => print_all(&[Piece::Text(b"usage\n")], out),
            Fault::Read => print_all(&[Piece::Text(b"read fault\n")], out),
            Fault::Write => Ok(()),
            Fault::FileWrite => print_all(&[Piece::Text(b"write fault\n")], out),
            Fault::Wire => print_all(&[Piece::Text(b"wire fault\n")], out),
            Fault::Turns => print_all(&[Piece::Text(b"turns spent\n")], out),
            Fault::Profile(e) => print_profile(e, out),
            Fault::Demo(e) => print_demo(e, out),
            Fault::Index(e) => print_index(e, out),
            Fault::PastEnd(records) => print_all(
                &[
                    Piece::Text(b"past end: "),
                    Piece::Number(u64::from(records)),
                    Piece::Text(b"\n"),
                ],
                out,
            ),
            Fault::Script { line, cause } => print_all(
                &[
                    Piece::Text(b"script: line "),
                    Piece::Number(u64::from(line)),
                    Piece::Text(b": "),
                    Piece::Text(word(cause)),
                    Piece::Text(b"\n"),
                ],
                out,
            ),
        }
    }
}

/// Prints the fault line of a profile that fails a rule.
fn print_profile<O: Sink>(e: ProfileError, out: &mut O) -> Result<(), Failed>
    ensures adds { Adds (O.written out.old) (O.written out.new) (profile_line e) result }
    ensures cause { HasCause (O.faults out.old) (O.faults out.new) result }
{
    match e {
        ProfileError::NoMemory => print_all(&[Piece::Text(b"no memory\n")], out),
        ProfileError::NotToml => print_all(&[Piece::Text(b"profile: toml\n")], out),
        ProfileError::Limit(Key::File) => print_all(&[Piece::Text(b"profile: large\n")], out),
        ProfileError::Code(e) => print_code(e, out),
        ProfileError::Missing(key) => print_key(b"missing ", key, out),
        ProfileError::Kind(key) => print_key(b"kind ", key, out),
        ProfileError::Fields(key) => print_key(b"fields ", key, out),
        ProfileError::Limit(key) => print_key(b"limit ", key, out),
        ProfileError::Width(key, i) => print_all(
            &[
                Piece::Text(b"profile: width "),
                Piece::Text(key.name().as_bytes()),
                Piece::Text(b" "),
                Piece::Number(i as u64),
                Piece::Text(b"\n"),
            ],
            out,
        ),
    }
}

/// Prints the fault line of a key's rule.
fn print_key<O: Sink>(rule: &[u8], key: Key, out: &mut O) -> Result<(), Failed>
    ensures adds { Adds (O.written out.old) (O.written out.new) (key_line rule.now key) result }
    ensures cause { HasCause (O.faults out.old) (O.faults out.new) result }
{
    print_all(
        &[
            Piece::Text(b"profile: "),
            Piece::Text(rule),
            Piece::Text(key.name().as_bytes()),
            Piece::Text(b"\n"),
        ],
        out,
    )
}

/// Prints the fault line of texts that are no code.
fn print_code<O: Sink>(e: CodeError, out: &mut O) -> Result<(), Failed>
    ensures adds { Adds (O.written out.old) (O.written out.new) (code_line e) result }
    ensures cause { HasCause (O.faults out.old) (O.faults out.new) result }
{
    match e {
        CodeError::NoMemory => print_all(&[Piece::Text(b"no memory\n")], out),
        CodeError::Count => print_all(&[Piece::Text(b"profile: code count\n")], out),
        CodeError::Empty(i) => print_place(b"empty ", i, out),
        CodeError::Long(i) => print_place(b"long ", i, out),
        CodeError::NotBits(i) => print_place(b"bits ", i, out),
        CodeError::Clash(i, j) => print_all(
            &[
                Piece::Text(b"profile: code clash "),
                Piece::Number(i as u64),
                Piece::Text(b" "),
                Piece::Number(j as u64),
                Piece::Text(b"\n"),
            ],
            out,
        ),
    }
}

/// Prints the fault line of a rule that the code's text at this place breaks.
fn print_place<O: Sink>(rule: &[u8], place: usize, out: &mut O) -> Result<(), Failed>
    ensures adds { Adds (O.written out.old) (O.written out.new) (text_line rule.now place) result }
    ensures cause { HasCause (O.faults out.old) (O.faults out.new) result }
{
    print_all(
        &[
            Piece::Text(b"profile: code "),
            Piece::Text(rule),
            Piece::Number(place as u64),
            Piece::Text(b"\n"),
        ],
        out,
    )
}

/// Prints the fault line of a demo.
fn print_demo<O: Sink>(e: DemoError, out: &mut O) -> Result<(), Failed>
    ensures adds { Adds (O.written out.old) (O.written out.new) (demo_line e) result }
    ensures cause { HasCause (O.faults out.old) (O.faults out.new) result }
{
    match e {
        DemoError::ReadFault => print_all(&[Piece::Text(b"read fault\n")], out),
        DemoError::NoMemory => print_all(&[Piece::Text(b"no memory\n")], out),
        DemoError::WriteFault => print_all(&[], out),
        DemoError::Truncated(at) => print_record(b"truncated", at, out),
        DemoError::BadLength(at) => print_record(b"length", at, out),
        DemoError::BadNumber(at) => print_record(b"number", at, out),
        DemoError::Message(at, cause) => print_message(at, cause, out),
    }
}

/// Prints the fault line of a record at a place.
fn print_record<O: Sink>(rule: &[u8], at: u64, out: &mut O) -> Result<(), Failed>
    ensures adds { Adds (O.written out.old) (O.written out.new) (record_line rule.now at) result }
    ensures cause { HasCause (O.faults out.old) (O.faults out.new) result }
{
    print_all(
        &[
            Piece::Text(b"demo: "),
            Piece::Text(rule),
            Piece::Text(b" at "),
            Piece::Number(at),
            Piece::Text(b"\n"),
        ],
        out,
    )
}

/// Prints the fault line of a record whose message isn't legible.
fn print_message<O: Sink>(at: u64, cause: Illegible, out: &mut O) -> Result<(), Failed>
    ensures adds { Adds (O.written out.old) (O.written out.new)
        (concat (codes "demo:" ∷ illegible_text (report_spec.cause_word cause) (report_spec.cause_number cause) at ∷ [])) result }
    ensures cause { HasCause (O.faults out.old) (O.faults out.new) result }
{
    let Some(number) = cause_number(cause) else {
        return print_all(
            &[
                Piece::Text(b"demo:"),
                Piece::Text(b" illegible "),
                Piece::Text(q3_svmsg::cause_word(cause)),
                Piece::Text(b" at "),
                Piece::Number(at),
                Piece::Text(b"\n"),
            ],
            out,
        );
    };
    print_all(
        &[
            Piece::Text(b"demo:"),
            Piece::Text(b" illegible "),
            Piece::Text(q3_svmsg::cause_word(cause)),
            Piece::Text(b" "),
            Piece::Number(u64::from(number)),
            Piece::Text(b" at "),
            Piece::Number(at),
            Piece::Text(b"\n"),
        ],
        out,
    )
}

/// Prints the fault line of an index.
fn print_index<O: Sink>(e: IndexError, out: &mut O) -> Result<(), Failed>
    ensures adds { Adds (O.written out.old) (O.written out.new) (index_line e) result }
    ensures cause { HasCause (O.faults out.old) (O.faults out.new) result }
{
    match e {
        IndexError::ReadFault => print_all(&[Piece::Text(b"read fault\n")], out),
        IndexError::NoMemory => print_all(&[Piece::Text(b"no memory\n")], out),
        IndexError::NotIndex(at) => print_all(
            &[
                Piece::Text(b"index: bad at "),
                Piece::Number(at),
                Piece::Text(b"\n"),
            ],
            out,
        ),
        IndexError::OtherDemo { kept, found } => print_all(
            &[
                Piece::Text(b"index: other demo "),
                Piece::Number(found.0),
                Piece::Text(b" "),
                Piece::Number(found.1),
                Piece::Text(b", kept "),
                Piece::Number(kept.0),
                Piece::Text(b" "),
                Piece::Number(kept.1),
                Piece::Text(b"\n"),
            ],
            out,
        ),
        IndexError::OtherWidth { kept, found } => print_all(
            &[
                Piece::Text(b"index: width "),
                Piece::Number(u64::from(kept)),
                Piece::Text(b", profile "),
                Piece::Number(u64::from(found)),
                Piece::Text(b"\n"),
            ],
            out,
        ),
    }
}

/// The word of a cause.
fn word(cause: LineCause) -> &'static [u8]
    ensures { result.now ≡ cause_word cause }
{
    match cause {
        LineCause::Large => b"large",
        LineCause::Many => b"many",
        LineCause::Word => b"word",
        LineCause::Count => b"count",
        LineCause::Number => b"number",
        LineCause::Fields => b"fields",
        LineCause::Text => b"text",
        LineCause::Name => b"name",
        LineCause::Address => b"address",
        LineCause::Order => b"order",
    }
}

impl From<NoMemory> for Fault {
    ghost use Rattle.q3_runs.specs.declared.fault.Fault.TheVariants as faults;

    ghost from_gives = { λ _ f. f ≡ faults.NoMemory };

    fn from(_: NoMemory) -> Fault {
        Fault::NoMemory
    }
}

impl From<ProfileError> for Fault {
    ghost use Rattle.q3_runs.specs.Faults.{profile_fault};

    ghost from_gives = { λ e f. f ≡ profile_fault e };

    fn from(e: ProfileError) -> Fault {
        match e {
            ProfileError::NoMemory => Fault::NoMemory,
            e => Fault::Profile(e),
        }
    }
}

impl From<ScriptError> for Fault {
    ghost use Rattle.q3_runs.specs.Faults.{script_fault};

    ghost from_gives = { λ e f. f ≡ script_fault e };

    fn from(e: ScriptError) -> Fault {
        match e {
            ScriptError::NoMemory => Fault::NoMemory,
            ScriptError::Line { line, cause } => Fault::Script { line, cause },
        }
    }
}

impl From<NodeError> for Fault {
    ghost use Rattle.q3_runs.specs.Faults.{node_fault};

    ghost from_gives = { λ e f. f ≡ node_fault e };

    fn from(e: NodeError) -> Fault {
        match e {
            NodeError::NoMemory => Fault::NoMemory,
            NodeError::WireFault => Fault::Wire,
            NodeError::WriteFault => Fault::Write,
            NodeError::FileFault => Fault::FileWrite,
            NodeError::Turns => Fault::Turns,
        }
    }
}

impl From<DemoError> for Fault {
    ghost use Rattle.q3_runs.specs.Faults.{demo_fault};

    ghost from_gives = { λ e f. f ≡ demo_fault e };

    fn from(e: DemoError) -> Fault {
        match e {
            DemoError::NoMemory => Fault::NoMemory,
            DemoError::ReadFault => Fault::Read,
            DemoError::WriteFault => Fault::Write,
            e => Fault::Demo(e),
        }
    }
}

impl From<IndexError> for Fault {
    ghost use Rattle.q3_runs.specs.Faults.{index_fault};

    ghost from_gives = { λ e f. f ≡ index_fault e };

    fn from(e: IndexError) -> Fault {
        match e {
            IndexError::NoMemory => Fault::NoMemory,
            IndexError::ReadFault => Fault::Read,
            e => Fault::Index(e),
        }
    }
}

impl From<SeekError> for Fault {
    ghost use Rattle.q3_runs.specs.Faults.{seek_fault};

    ghost from_gives = { λ e f. f ≡ seek_fault e };

    fn from(e: SeekError) -> Fault {
        match e {
            SeekError::NoMemory => Fault::NoMemory,
            SeekError::ReadFault => Fault::Read,
            SeekError::NotIndex(place) => Fault::Index(IndexError::NotIndex(place)),
            SeekError::PastEnd(records) => Fault::PastEnd(records),
            SeekError::Demo(e) => Fault::Demo(e),
        }
    }
}
