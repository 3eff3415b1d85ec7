mod deep;
mod gate;
mod largest;

use crate::{in_pieces, pieces_cover, pieces_join};
use deep::Deep;
use eif_base::OpenGate;
use gate::WaitingGate;
use largest::Largest;
use std::test::Fail;

#[test]
fn pieces_come_in_order(rt: HostRuntime) -> Result<(), Fail> {
    let numbers = [3, 9, 4, 4, 1, 7, 2, 8, 5, 6];
    let each = numbers.map(Some);
    let work = Largest { numbers: &numbers };
    let one = in_pieces(&rt, rt.alloc(), 1, 10, &OpenGate, &work)?;
    assert_eq!(rt; one.as_slice(), [Some(9)].as_slice());
    let two = in_pieces(&rt, rt.alloc(), 2, 10, &OpenGate, &work)?;
    assert_eq!(rt; two.as_slice(), [Some(9), Some(8)].as_slice());
    let seven = in_pieces(&rt, rt.alloc(), 7, 10, &OpenGate, &work)?;
    let largest = [3, 9, 4, 1, 7, 8, 6].map(Some);
    assert_eq!(rt; seven.as_slice(), largest.as_slice());
    let many = in_pieces(&rt, rt.alloc(), 64, 10, &OpenGate, &work)?;
    assert_eq!(rt; many.as_slice(), each.as_slice());
    let none = in_pieces(&rt, rt.alloc(), 64, 0, &OpenGate, &work)?;
    assert!(rt; none.is_empty());
    pieces_cover();
    pieces_join::<Vec<u32>, u32, u32>();
    Ok(())
}

#[test]
fn two_pieces_meet_at_the_gate(rt: HostRuntime) -> Result<(), Fail> {
    let numbers = [5, 3];
    let gate = WaitingGate::new(rt.alloc(), 2)?;
    let work = Largest { numbers: &numbers };
    let both = in_pieces(&rt, rt.alloc(), 2, 2, &gate, &work)?;
    assert_eq!(rt; both.as_slice(), [Some(5), Some(3)].as_slice());
    for piece in 0..2 {
        assert_eq!(rt; gate.passes(piece), 1, "of piece {piece}");
        assert_eq!(rt; gate.meetings(piece), 1, "of piece {piece}");
    }
    Ok(())
}

#[test]
fn a_worker_recurses_deep(rt: HostRuntime) -> Result<(), Fail> {
    let sums = in_pieces(&rt, rt.alloc(), 2, 2, &OpenGate, &Deep { levels: 400 })?;
    assert_eq!(rt; sums.len(), 2);
    for sum in &sums {
        assert_eq!(rt; *sum, 400);
    }
    Ok(())
}
