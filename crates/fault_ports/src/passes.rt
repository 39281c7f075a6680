//! Calls that roads get with the halves themselves of an end whose connection may be cut.

ghost use Rattle.std.specs.Prelude.{◌≡◌, ◌≢◌, ◌≤◌, ◌<◌, ◌==◌, ◌&&◌, ◌||◌, ℕ, vec_len, vec_capacity, Some, None, false, true, cond, IfSome, IfOk, IsErrOf};
ghost use Rattle.hd_base.specs.Channels.{is_hungry};
ghost use Rattle.hd_base.specs.Ends.{IsFresh, has_failed as end_failed};
ghost use Rattle.hd_base.specs.Faults.{FaultsIncreased};
ghost use Rattle.mem_ports.specs.Roads.{risen_of};

use crate::halves::{CutIn, CutOut};
use hd_base::{Conn, ConnId, Got, LinkError, LinkIn, LinkOut, RoadError};

/// Counts an error that is a fault.
pub fn counted_fault(faults: &mut u64, error: RoadError) -> RoadError
    ensures same { result ≡ error }
    ensures fault { error ≡ RoadError.Failed → FaultsIncreased faults.old faults.new }
    ensures other { error ≢ RoadError.Failed → faults.new ≡ faults.old }
    ensures never_falls { faults.old ≤ faults.new }
{
    if error == RoadError::Failed {
        *faults = faults.saturating_add(1);
    }
    error
}

/// How many pieces still wait to be flushed after an exchange.
pub fn still_pending(plain: bool, pending: u64) -> u64
    ensures { result ≡ cond plain 0 pending }
{
    if plain { 0 } else { pending }
}

/// Whether a count of an end has risen.
pub fn has_failed<I: LinkIn, O: LinkOut>(end: &Conn<CutIn<I>, CutOut<O>>) -> bool
    ensures { result ≡ end_failed ⟦<CutIn<I> as LinkIn>⟧ ⟦<CutOut<O> as LinkOut>⟧ end.now }
{
    end.inward.faults > 0 || end.outward.faults > 0
}

/// Whether a half that was given nothing in advance is hungry.
pub fn probe<I: LinkIn>(half: &mut CutIn<I>) -> Result<bool, LinkError>
    requires first { half.old.first ≡ None }
    requires ended { half.old.ended ≡ false }
    ensures hungry { IfOk result (λ hungry. IfSome (⟦<CutIn<I> as LinkIn>⟧.held half.old) (λ inbox.
        hungry ≡ is_hungry inbox)) }
    ensures bare { IfOk result (λ hungry. hungry ≡ true → half.new.first ≡ None) }
    ensures ended { half.new.ended ≡ false }
    ensures held { ⟦<CutIn<I> as LinkIn>⟧.held half.new ≡ ⟦<CutIn<I> as LinkIn>⟧.held half.old }
    ensures shut { ⟦<CutIn<I> as LinkIn>⟧.shut half.new ≡ ⟦<CutIn<I> as LinkIn>⟧.shut half.old }
    ensures faults { half.new.faults ≡ half.old.faults }
    ensures no_memory { IsErrOf result LinkError.Memory → ⊥ }
{
    let Some(inner) = &mut half.inner else {
        unreachable!();
    };
    let mut byte = [0];
    match inner.recv(&mut byte) {
        Ok(Got::Bytes(_)) => {
            half.first = Some(byte[0]);
            Ok(false)
        }
        Ok(Got::NotYet) => Ok(true),
        Ok(Got::End) => Ok(false),
        Err(error) => Err(error),
    }
}

/// The halves that the roads themselves gave.
pub fn own_halves<I: LinkIn, O: LinkOut>(inward: CutIn<I>, outward: CutOut<O>) -> (I, O)
    ensures inward { inward.inner ≡ Some result.0 }
    ensures outward { outward.inner ≡ Some result.1 }
{
    let CutIn { inner: inward, .. } = inward;
    let CutOut { inner: outward, .. } = outward;
    let (Some(inward), Some(outward)) = (inward, outward) else {
        unreachable!();
    };
    (inward, outward)
}

/// Remembers a connection an end of which had failed.
pub fn add_risen(risen: &mut Vec<u64>, conn: ConnId, failed: bool)
    requires { vec_len risen.old < vec_capacity risen.old }
    ensures { (c : ℕ) → risen_of risen.new.items c ≡ (risen_of risen.old.items c || ((conn.0 == c) && failed)) }
{
    if failed {
        risen.push_reserved(conn.0);
    }
}

/// The end with its halves as those of roads whose connections may be cut.
pub fn wrapped<I: LinkIn, O: LinkOut>(end: Conn<I, O>) -> Conn<CutIn<I>, CutOut<O>>
    requires { IsFresh I.LinkIn O.LinkOut end }
    ensures inward { (result.inward.inner ≡ Some end.inward)
        × (result.inward.first ≡ None) × (result.inward.ended ≡ false) }
    ensures outward { (result.outward.inner ≡ Some end.outward) × (result.outward.faults ≡ 0) }
    ensures place { (result.id ≡ end.id) × (result.lower ≡ end.lower) × (result.inward.faults ≡ 0) }
{
    let Conn {
        id,
        lower,
        inward,
        outward,
    } = end;
    Conn {
        id,
        lower,
        inward: CutIn::new(inward),
        outward: CutOut::new(outward),
    }
}
