//! A connection that is cut, with three pieces in flight each way.

ghost use Rattle.std.specs.Prelude.{◌≡◌, ◌<◌, IfSome};

use fault_ports::{CutIn, CutOut, CutRoads, Cutting};
use hd_base::{Conn, Got, LinkError, LinkIn, LinkOut, NodeId, RoadError, Roads};
use mem_ports::MemRoads;
use std::alloc::{AllocError, Global};
use std::test::Fail;

/// Sends a piece.
fn send<O: LinkOut>(alloc: Global, outward: &mut O, piece: &[u8]) -> Result<usize, LinkError> {
    outward.room(alloc, piece.len() as u64)?;
    outward.send(piece)
}

/// Sends a piece and exchanges the end.
fn say<R: Roads>(
    alloc: Global,
    roads: &mut R,
    end: &mut Conn<R::Inward, R::Outward>,
    piece: &[u8],
) -> Result<(), RoadError>
    requires { IfSome (R.plain roads.old) (λ p. end.old.id.0 < p.dialled) }
    ensures same { end.new.id ≡ end.old.id }
    ensures known { (n : _) → IfSome (R.plain roads.old) (λ p. n < p.dialled)
        → IfSome (R.plain roads.new) (λ p. n < p.dialled) }
{
    if send(alloc, &mut end.outward, piece).is_err() {
        return Err(RoadError::Memory);
    }
    roads.exchange(alloc, end, false)
}

/// Exchanges the end with a take, and receives into two bytes.
fn hear<R: Roads>(
    alloc: Global,
    roads: &mut R,
    end: &mut Conn<R::Inward, R::Outward>,
) -> Result<(Option<Got>, u8), RoadError>
    requires { IfSome (R.plain roads.old) (λ p. end.old.id.0 < p.dialled) }
    ensures same { end.new.id ≡ end.old.id }
    ensures known { (n : _) → IfSome (R.plain roads.old) (λ p. n < p.dialled)
        → IfSome (R.plain roads.new) (λ p. n < p.dialled) }
{
    roads.exchange(alloc, end, true)?;
    let mut into = [0; 2];
    let got = end.inward.recv(&mut into).ok();
    Ok((got, into[0]))
}

/// Sends three pieces of one byte.
fn say_three<R: Roads>(
    alloc: Global,
    roads: &mut R,
    end: &mut Conn<R::Inward, R::Outward>,
) -> Result<(), RoadError>
    requires { IfSome (R.plain roads.old) (λ p. end.old.id.0 < p.dialled) }
    ensures same { end.new.id ≡ end.old.id }
    ensures known { (n : _) → IfSome (R.plain roads.old) (λ p. n < p.dialled)
        → IfSome (R.plain roads.new) (λ p. n < p.dialled) }
{
    say(alloc, roads, end, b"1")?;
    say(alloc, roads, end, b"2")?;
    say(alloc, roads, end, b"3")
}

/// What is taken after the cut of connection 0: three receipts, with a piece sent on it before the
/// last one.
fn taken<R: Roads>(
    alloc: Global,
    roads: &mut R,
    from: &mut Conn<R::Inward, R::Outward>,
    to: &mut Conn<R::Inward, R::Outward>,
) -> Result<[(Option<Got>, u8); 3], RoadError>
    requires from { IfSome (R.plain roads.old) (λ p. from.old.id.0 < p.dialled) }
    requires to { IfSome (R.plain roads.old) (λ p. to.old.id.0 < p.dialled) }
{
    let first = hear(alloc, roads, to)?;
    let second = hear(alloc, roads, to)?;
    say(alloc, roads, from, b"4")?;
    let third = hear(alloc, roads, to)?;
    Ok([first, second, third])
}

/// Sends three pieces, cuts the connection behind the first each way, and takes.
fn cut_after_one<R: Roads>(
    alloc: Global,
    roads: &mut Cutting<R>,
    from: &mut Conn<CutIn<R::Inward>, CutOut<R::Outward>>,
    to: &mut Conn<CutIn<R::Inward>, CutOut<R::Outward>>,
) -> Result<[(Option<Got>, u8); 3], RoadError>
    requires from { IfSome (⟦<Cutting<R> as Roads>⟧.plain roads.old) (λ p. from.old.id.0 < p.dialled) }
    requires to { IfSome (⟦<Cutting<R> as Roads>⟧.plain roads.old) (λ p. to.old.id.0 < p.dialled) }
{
    say_three(alloc, roads, from)?;
    roads.cut(from.id, 1, 1)?;
    taken(alloc, roads, from, to)
}

/// What is taken of three pieces that were sent down, or up.
fn cut_way(alloc: Global, down: bool) -> Result<[(Option<Got>, u8); 3], RoadError> {
    let mut roads = Cutting::new(alloc, MemRoads::new(alloc, &[])?);
    let port = roads.listen(alloc, NodeId(3))?;
    let mut upper = roads.dial(alloc, port)?;
    let Some(mut lower) = roads.accept(alloc, port)? else {
        return Err(RoadError::NotListening);
    };
    if down {
        cut_after_one(alloc, &mut roads, &mut upper, &mut lower)
    } else {
        cut_after_one(alloc, &mut roads, &mut lower, &mut upper)
    }
}

#[test]
fn one_piece_and_the_end_are_taken(rt: HostRuntime) -> Result<(), Fail> {
    let wanted = [
        (Some(Got::Bytes(1)), b'1'),
        (Some(Got::End), 0),
        (Some(Got::End), 0),
    ];
    for down in [true, false] {
        let answer = cut_way(rt.alloc(), down).map_err(|_| AllocError)?;
        assert_eq!(rt; answer, wanted);
    }
    Ok(())
}
