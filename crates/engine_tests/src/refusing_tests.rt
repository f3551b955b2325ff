//! Commands over a keeper that refuses each image once.

use crate::sources::FIVE_PLUS_FIVE;
use cpu::Processor;
use debugger::debug_session;
use feed::Feed;
use replay::{Session, VecKeeper};
use std::test::Fail;
use test_keepers::RefusingKeeper;
use words::Buffer;
use yayul::{Language, assemble};

#[test]
fn refused_steps_are_told_and_made_again(rt: HostRuntime) -> Result<(), Fail> {
    let alloc = rt.alloc();
    let (rope, symbols) = assemble(alloc, Language::Standard, FIVE_PLUS_FIVE)?.split();
    let processor = Processor::new(rope, Feed::empty(alloc));
    let mut session = Session::<RefusingKeeper<VecKeeper>>::open(alloc, processor)?;
    let mut commands = b"step 2\nstep 2\nrun 1\ngoto 0\nstep 3\nstep 3\nrun 3\ntail\n".as_slice();
    let mut out = Buffer::new(alloc);
    let ended = debug_session(alloc, &mut session, &symbols, &mut commands, &mut out);
    assert!(rt; ended.is_ok());
    assert_eq!(rt;
        out.as_slice(),
        b"E2 MEMORY\nAT 0 0 4000\nE2 MEMORY\nAT 1 2 4001\nAT 2 4 4002\nAT 0 0 4000
E2 MEMORY\nAT 2 4 4002\nE2 MEMORY\nAT 3 5 4003\n7 CH 010 00012\nE2 MEMORY\nAT 4 7 4004
7 CH 010 00012\nTAIL 1\n"
            .as_slice()
    );
    assert_eq!(rt; session.steps(), 4);
    Ok(())
}
