//! What an exchange is to give the inward half of an end.

ghost use Rattle.std.specs.Prelude.{◌≡◌, ◌||◌, true, false, None, IfSome, IfOk, IsErrOf};
ghost use Rattle.hd_base.specs.Channels.{is_hungry};
ghost use Rattle.fault_ports.specs.Offers.{passes, is_end, OffersNext, seen_next};

use crate::halves::CutIn;
use crate::passes::probe;
use hd_base::{LinkError, LinkIn, Standing};

/// What an exchange is to give the inward half.
#[derive(Clone, Copy, Debug, PartialEq, Eq)]
pub enum Offer {
    /// Nothing: it takes nothing, or holds something.
    Nothing,
    /// The end or nothing, whichever the roads themselves have.
    Rest,
    /// A piece.
    Piece,
    /// The end of a cut.
    End,
}

impl Offer {
    /// Whether the roads themselves are to give it.
    pub fn passes(self) -> bool
        ensures { result ≡ passes self }
    {
        match self {
            Offer::Nothing => false,
            Offer::Rest => true,
            Offer::Piece => true,
            Offer::End => false,
        }
    }

    /// Whether the end stands behind nothing after it was given.
    pub fn ends(self, ended: bool) -> bool
        ensures { result ≡ (ended || is_end self) }
    {
        match self {
            Offer::Nothing => ended,
            Offer::Rest => ended,
            Offer::Piece => ended,
            Offer::End => true,
        }
    }
}

/// What an exchange is to give the inward half of an end, where this stands next on roads over
/// plain memory, and so many pieces may still be taken. To see whether the half is hungry, a byte
/// may be received in advance.
pub fn offer_next<I: LinkIn>(
    half: &mut CutIn<I>,
    plain: bool,
    standing: Standing,
    left: Option<u64>,
    take: bool,
) -> Result<Offer, LinkError>
    ensures offer { IfOk result (λ offer. plain ≡ true →
        IfSome (⟦<CutIn<I> as LinkIn>⟧.held half.old) (λ inbox.
        OffersNext offer take (is_hungry inbox) standing left)) }
    ensures untaken { IfOk result (λ offer. take ≡ false → offer ≡ Offer.Nothing) }
    ensures bare { IfOk result (λ offer. passes offer ≡ true →
        (half.new.first ≡ None) × (half.new.ended ≡ false)) }
    ensures held { ⟦<CutIn<I> as LinkIn>⟧.held half.new ≡ ⟦<CutIn<I> as LinkIn>⟧.held half.old }
    ensures shut { ⟦<CutIn<I> as LinkIn>⟧.shut half.new ≡ ⟦<CutIn<I> as LinkIn>⟧.shut half.old }
    ensures faults { half.new.faults ≡ half.old.faults }
    ensures no_memory { IsErrOf result LinkError.Memory → ⊥ }
{
    if !take || half.first.is_some() || half.ended {
        return Ok(Offer::Nothing);
    }
    if !plain {
        return Ok(Offer::Rest);
    }
    match (standing, left) {
        (_, Some(0)) => Ok(Offer::End),
        (Standing::Piece, _) => match probe(half) {
            Ok(true) => Ok(Offer::Piece),
            Ok(false) => Ok(Offer::Nothing),
            Err(error) => Err(error),
        },
        (_, Some(_)) => Ok(Offer::End),
        (_, None) => Ok(Offer::Rest),
    }
}

/// What is seen to stand next where this does on the roads themselves, and so many pieces may
/// still be taken.
pub fn seen_next(standing: Standing, left: Option<u64>) -> Standing
    ensures { result ≡ seen_next standing left }
{
    match left {
        None => standing,
        Some(0) => Standing::End,
        Some(_) => match standing {
            Standing::Piece => Standing::Piece,
            Standing::End => Standing::End,
            Standing::Nothing => Standing::End,
        },
    }
}
