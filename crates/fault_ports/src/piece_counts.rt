//! How many pieces stand on connections.

ghost use Rattle.std.specs.Prelude.{◌≡◌, ◌+◌, ◌<◌, ◌≤◌, ◌==◌, ◌&&◌, ℕ, Bool, cond, Some, None, [], length, OnOk, IfOk};
ghost use Rattle.hd_base.specs.Channels.{same_direction};
ghost use Rattle.fault_ports.specs.Offers.{count_given};
ghost use Rattle.fault_ports.specs.PieceCounts.{count_at, cut_count, taken_count, grown_count, dialled_by};

use crate::offers::Offer;
use hd_base::ConnId;
use std::alloc::{AllocError, Global};

/// The pieces on one direction of a connection.
#[derive(Clone, Copy, Debug, PartialEq, Eq)]
pub struct PieceCount {
    /// How many stand there, lost ones among them.
    pub standing: u64,
    /// How many of them may still be taken, where the connection was cut.
    pub left: Option<u64>,
}

impl PieceCount {
    /// Nothing stands there, and the connection wasn't cut.
    const NONE: PieceCount = PieceCount {
        standing: 0,
        left: None,
    };

    /// The count after a cut behind so many pieces.
    pub fn cut(self, pieces: u64) -> PieceCount
        ensures { result ≡ cut_count pieces self }
    {
        let left = match self.left {
            Some(left) => left,
            None => self.standing,
        };
        PieceCount {
            standing: self.standing,
            left: Some(pieces.min(left)),
        }
    }

    /// The count after a piece was taken.
    pub fn taken(self) -> PieceCount
        ensures { result ≡ taken_count self }
    {
        PieceCount {
            standing: self.standing.saturating_sub(1),
            left: match self.left {
                Some(left) => Some(left.saturating_sub(1)),
                None => None,
            },
        }
    }
}

/// The pieces on the two directions of a connection.
#[derive(Clone, Copy, Debug, PartialEq, Eq)]
pub struct DuplexCount {
    pub down: PieceCount,
    pub up: PieceCount,
}

/// The pieces on each connection, by number; on those that aren't listed nothing stands.
#[derive(Debug, Drop)]
pub struct PieceCounts {
    pub duplexes: Vec<DuplexCount>,
}

impl PieceCounts {
    /// Nothing stands anywhere.
    pub fn new(alloc: Global) -> PieceCounts
        ensures { result.duplexes.items ≡ [] }
    {
        PieceCounts {
            duplexes: Vec::new(alloc),
        }
    }

    /// What stands on one direction.
    pub fn get(&self, conn: ConnId, down: bool) -> PieceCount
        ensures { result ≡ count_at self.now.duplexes.items conn.0 down }
    {
        match self.duplexes.get(conn.0 as usize) {
            Some(duplex) if down => duplex.down,
            Some(duplex) => duplex.up,
            None => PieceCount::NONE,
        }
    }

    /// Lists a connection and those below it, where it is no newer than the newest one.
    pub fn list(&mut self, newest: Option<u64>, conn: ConnId) -> Result<(), AllocError>
        ensures listed { OnOk result (conn.0 < dialled_by newest → conn.0 < length self.new.duplexes.items) }
        ensures counts { (c : ℕ) (d : Bool) →
            count_at self.new.duplexes.items c d ≡ count_at self.old.duplexes.items c d }
        ensures bounded { length self.old.duplexes.items ≤ dialled_by newest →
            length self.new.duplexes.items ≤ dialled_by newest }
    {
        match newest {
            Some(newest) if conn.0 <= newest => self.extend(conn.0 as usize),
            _ => Ok(()),
        }
    }

    /// Lists the connection with this number, and those below it.
    fn extend(&mut self, place: usize) -> Result<(), AllocError>
        ensures listed { OnOk result (place < length self.new.duplexes.items) }
        ensures counts { (c : ℕ) (d : Bool) →
            count_at self.new.duplexes.items c d ≡ count_at self.old.duplexes.items c d }
        ensures bounded { (n : ℕ) → length self.old.duplexes.items ≤ n → place < n →
            length self.new.duplexes.items ≤ n }
    {
        while self.duplexes.len() <= place {
            self.duplexes.push(DuplexCount {
                down: PieceCount::NONE,
                up: PieceCount::NONE,
            })?;
        }
        Ok(())
    }

    /// The count of a direction after so many more pieces were sent there. The connection is then
    /// listed, where it is no newer than the newest one.
    pub fn grown(
        &mut self,
        newest: Option<u64>,
        conn: ConnId,
        down: bool,
        more: u64,
    ) -> Result<PieceCount, AllocError>
        ensures grown { IfOk result (λ count.
            count ≡ grown_count (count_at self.old.duplexes.items conn.0 down) more) }
        ensures listed { OnOk result (conn.0 < dialled_by newest → conn.0 < length self.new.duplexes.items) }
        ensures counts { (c : ℕ) (d : Bool) →
            count_at self.new.duplexes.items c d ≡ count_at self.old.duplexes.items c d }
        ensures bounded { length self.old.duplexes.items ≤ dialled_by newest →
            length self.new.duplexes.items ≤ dialled_by newest }
    {
        self.list(newest, conn)?;
        let count = self.get(conn, down);
        match count.standing.checked_add(more) {
            Some(standing) => Ok(PieceCount {
                standing,
                left: count.left,
            }),
            None => Err(AllocError),
        }
    }

    /// Puts another count in place of that of a direction, where the connection is listed.
    pub fn set(&mut self, conn: ConnId, down: bool, count: PieceCount)
        ensures counts { conn.0 < length self.old.duplexes.items → (c : ℕ) (d : Bool) →
            count_at self.new.duplexes.items c d
            ≡ cond ((conn.0 == c) && same_direction down d) count (count_at self.old.duplexes.items c d) }
        ensures listed { length self.new.duplexes.items ≡ length self.old.duplexes.items }
    {
        let place = conn.0 as usize;
        if place >= self.duplexes.len() {
            return;
        }
        let duplex = &mut self.duplexes[place];
        if down {
            duplex.down = count;
        } else {
            duplex.up = count;
        }
    }

    /// Cuts a connection behind so many pieces down, and up, where it is listed.
    pub fn cut(&mut self, conn: ConnId, down: u64, up: u64)
        ensures counts { conn.0 < length self.old.duplexes.items → (c : ℕ) (d : Bool) →
            count_at self.new.duplexes.items c d ≡ cond (conn.0 == c)
            (cut_count (cond d down up) (count_at self.old.duplexes.items c d))
            (count_at self.old.duplexes.items c d) }
        ensures listed { length self.new.duplexes.items ≡ length self.old.duplexes.items }
    {
        let place = conn.0 as usize;
        if place >= self.duplexes.len() {
            return;
        }
        let duplex = &mut self.duplexes[place];
        duplex.down = duplex.down.cut(down);
        duplex.up = duplex.up.cut(up);
    }

    /// Counts what an exchange gave the inward half that takes from this direction, where the
    /// connection is listed.
    pub fn book(&mut self, conn: ConnId, down: bool, offer: Offer)
        ensures counts { conn.0 < length self.old.duplexes.items → (c : ℕ) (d : Bool) →
            count_at self.new.duplexes.items c d ≡ cond ((conn.0 == c) && same_direction down d)
            (count_given offer (count_at self.old.duplexes.items c d)) (count_at self.old.duplexes.items c d) }
        ensures listed { length self.new.duplexes.items ≡ length self.old.duplexes.items }
    {
        if offer == Offer::Piece {
            let count = self.get(conn, down).taken();
            self.set(conn, down, count);
        }
    }
}
