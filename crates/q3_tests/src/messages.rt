//! A message of a server with nothing in it.

use q3_bits::Code;
use q3_entity::Baselines;
use q3_fields::Table;
use q3_profile::Profile;
use q3_svmsg::{BaseView, Bases, Section, ServerMessage, read_server_message};
use std::alloc::Global;
use std::process::Abort;
use std::test::*;

/// No snapshot is held.
#[derive(Drop)]
struct NoneHeld {
    baselines: Baselines,
}

impl Bases for NoneHeld {
    ghost use Rattle.std.specs.Prelude.{None};

    ghost context = { λ h. record { base = λ n. None; baselines = h.baselines } };

    fn base(&self, _number: u32) -> Option<BaseView<'_>> {
        None
    }

    fn baselines(&self) -> &Baselines {
        &self.baselines
    }
}

fn profile(rt: &impl Abort, alloc: Global) -> Profile {
    Profile {
        code: Code::plain(alloc).expect(rt, "memory"),
        entity: Table::of(&[0, 8, -16]).expect(rt, "a table"),
        player: Table::of(&[0, 16]).expect(rt, "a table"),
        server_ring: 4096,
        parse_ring: 8192,
        protocol: 68,
        mark: 0,
    }
}

#[test]
fn message_with_nothing_in_it(rt: HostRuntime) {
    let alloc = rt.alloc();
    let profile = profile(&rt, alloc);
    let baselines = Baselines::new(alloc).expect(&rt, "memory");
    let held = NoneHeld { baselines };
    let mut message = ServerMessage::new(alloc).expect(&rt, "memory");
    let bytes = [0x00, 0x00, 0x00, 0x00, 0x08, 0x00];
    assert_eq!(rt;
        read_server_message(&profile, 1, &bytes, &held, &mut message),
        Ok(())
    );
    assert_eq!(rt; message.ack, 0);
    assert!(rt; message.commands.as_slice().is_empty());
    assert_eq!(rt; message.section, Section::Nothing);
}
