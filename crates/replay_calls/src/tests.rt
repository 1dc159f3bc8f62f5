// Each reader that takes memory, once: no contract says that it succeeds.
use crate::calls::{Call, next_call};
use crate::study::next_study;
use replay_input::reader::Reader;
use replay_sheet::content::{Lengths, next_sheet};
use replay_sheet::counts::CallKind;
use replay_study::owned::{next_grid, next_values};
use std::test::Fail;

#[test]
fn grid_is_read(rt: HostRuntime) -> Result<(), Fail> {
    let mut reader = Reader::new(b"2 4 5 -6 3 0 1 -1 2 7 8 9");
    let grid = next_grid(&mut reader, rt.alloc())?;
    assert_eq!(rt; grid.bz_grid_type, 2);
    assert_eq!(rt; grid.d_diag, [4, 5, -6]);
    assert_eq!(rt; grid.addresses.as_slice(), [0, 1, -1].as_slice());
    assert_eq!(rt; grid.gp_map.as_slice(), [7, 8].as_slice());
    assert_eq!(rt; reader.next_whole(), 9);
    Ok(())
}

#[test]
fn values_are_read(rt: HostRuntime) -> Result<(), Fail> {
    let mut reader = Reader::new(b"1 3ff0000000000000 2 4000000000000000 c008000000000000 0 9");
    let values = next_values(&mut reader, rt.alloc())?;
    assert_eq!(rt; values.frequencies1.as_slice(), [1.0].as_slice());
    assert_eq!(rt; values.frequencies2.as_slice(), [2.0, -3.0].as_slice());
    assert_eq!(rt; values.points.len(), 0);
    assert_eq!(rt; reader.next_whole(), 9);
    Ok(())
}

#[test]
fn study_is_read(rt: HostRuntime) -> Result<(), Fail> {
    let mut reader = Reader::new(b"3 4 5 1 3ff0000000000000 0 1 4000000000000000 3 6 7 -8 9");
    let study = next_study(&mut reader, rt.alloc())?;
    assert_eq!(rt; study.tp_type, 3);
    assert_eq!(rt; study.num_band1, 4);
    assert_eq!(rt; study.num_band2, 5);
    assert_eq!(rt; study.values.frequencies1.as_slice(), [1.0].as_slice());
    assert_eq!(rt; study.values.points.as_slice(), [2.0].as_slice());
    assert_eq!(rt; study.triplets.as_slice(), [6, 7, -8].as_slice());
    assert_eq!(rt; reader.next_whole(), 9);
    Ok(())
}

#[test]
fn sheet_is_read(rt: HostRuntime) -> Result<(), Fail> {
    let mut reader = Reader::new(
        b"3ff0000000000000 c008000000000000 1 0 1 2 1f 1 2 3 4 5 6 7 8 9 a b c d e f 9",
    );
    let lengths = Lengths {
        weights: 2,
        flags: 1,
        marks: 3,
    };
    let sheet = next_sheet(&mut reader, rt.alloc(), lengths)?;
    assert_eq!(rt; sheet.weights.as_slice(), [1.0, -3.0].as_slice());
    assert_eq!(rt; sheet.flags.as_slice(), [1].as_slice());
    assert_eq!(rt; sheet.marks.as_slice(), [0, 1, 2].as_slice());
    assert_eq!(rt;
        sheet.tally.runs,
        [31, 1, 2, 3, 4, 5, 6, 7, 8, 9, 10, 11, 12, 13, 14, 15]
    );
    assert_eq!(rt; reader.next_whole(), 9);
    Ok(())
}

#[test]
fn calls_are_read(rt: HostRuntime) -> Result<(), Fail> {
    let mut reader = Reader::new(b"7 4 0 1 2 3 5 0 1 2 6 0 2 10 11 1 12 2 9");
    let run = next_call(&mut reader, rt.alloc(), CallKind::RunPiece)?;
    let average = next_call(&mut reader, rt.alloc(), CallKind::Average)?;
    let play = next_call(&mut reader, rt.alloc(), CallKind::Play)?;
    match run {
        Call::RunPiece { worker, piece } => {
            assert_eq!(rt; [worker, piece.triplet, piece.b1, piece.b2], [7, 4, 0, 1]);
        }
        _ => panic!(rt; "no run"),
    }
    match average {
        Call::Average {
            triplet,
            ids1,
            ids2,
        } => {
            assert_eq!(rt; triplet, 2);
            assert_eq!(rt; ids1.as_slice(), [5, 0, 1].as_slice());
            assert_eq!(rt; ids2.as_slice(), [6, 0].as_slice());
        }
        _ => panic!(rt; "no averaging"),
    }
    match play {
        Call::Play { list, ids, answers } => {
            assert_eq!(rt; list.as_slice(), [10, 11].as_slice());
            assert_eq!(rt; ids.as_slice(), [12].as_slice());
            assert_eq!(rt; answers, 2);
        }
        _ => panic!(rt; "no list of calls"),
    }
    assert_eq!(rt; reader.next_whole(), 9);
    Ok(())
}
