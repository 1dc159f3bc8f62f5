// The blocks of the input, replayed record by record.
use crate::cases::{Cases, Judged};
use anyhow::Result;
use replay_input::reader::{Reader, next_block};
use std::alloc::{AllocError, Global};
use std::fmt::Display;

// What a program keeps of a block's records for those after them; nothing at first.
pub trait Replay: Default + Drop {
    // What it counts and prints.
    type Counts: Display + Drop;

    // Reads the next record, and counts the case that it is, if it is one.
    fn next_record(
        &mut self,
        rt: &impl Print,
        alloc: Global,
        reader: &mut Reader<'_>,
        counts: &mut Self::Counts,
    ) -> Result<()>;
}

// A case that a record is.
pub trait Case: Default + Drop {
    // Reads the next record, makes its call, and holds the answer to the stored one.
    fn next_case(reader: &mut Reader<'_>, alloc: Global) -> Result<Judged, AllocError>;
}

// Records that are all cases of one kind; none is kept for those after it.
#[derive(Default, Drop)]
pub struct Only<C> {
    case: C,
}

impl<C: Case> Replay for Only<C> {
    type Counts = Cases;

    fn next_record(
        &mut self,
        rt: &impl Print,
        alloc: Global,
        reader: &mut Reader<'_>,
        cases: &mut Cases,
    ) -> Result<()> {
        cases.add(rt, C::next_case(reader, alloc)?);
        Ok(())
    }
}

fn replay_block<R: Replay>(
    rt: &impl Print,
    alloc: Global,
    text: &[u8],
    counts: &mut R::Counts,
) -> Result<()> {
    let mut replay = R::default();
    let mut reader = Reader::new(text);
    // a record has a byte at least
    for _ in text {
        if reader.is_at_end() {
            break;
        }
        replay.next_record(rt, alloc, &mut reader, counts)?;
    }
    Ok(())
}

// Replays the blocks of the input, a thousand at most, and prints what is counted; a program whose output is not taken ends as any other. No
// contract: it reads the input and prints, of which a contract can say nothing; each program's stdout is compared.
pub fn replay_blocks<R: Replay>(
    rt: &impl Print,
    alloc: Global,
    mut counts: R::Counts,
) -> Result<()> {
    let mut text = io::large_buffer();
    for _ in 0..1000 {
        let Some(block) = next_block(&mut text) else {
            break;
        };
        replay_block::<R>(rt, alloc, block, &mut counts)?;
    }
    let _ = println!(rt; "{counts}");
    Ok(())
}
