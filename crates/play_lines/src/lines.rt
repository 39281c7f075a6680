//! The lines of a script are played, one after the other.

ghost use Rattle.std.specs.Prelude.{◌≡◌, false, length, IfOk};
ghost use Rattle.play_scripts.specs.MemberEvents.Roads.{RoadsPass};
ghost use Rattle.play_scripts.specs.PlayNodes.Places.{KeepsSizes};
ghost use Rattle.play_scripts.specs.Reads.{is_read};
ghost use Rattle.play_scripts.specs.Recoveries.{is_recovery};
ghost use Rattle.play_scripts.specs.Unplayed.{is_start, is_fault, LineIsTold, LinesAreTold};
ghost use Rattle.play_lines.specs.Lines.{IsReady, LineShows, LineShowsOver, LinesShow, ordered_by};
ghost use Rattle.play_lines.specs.Shelves.{ShelvesServe, ShelvesGoOn};
ghost use Rattle.play_lines.specs.Showing.{IsPlaying};

use crate::asking::asks_are_plays;
use crate::faulting::arms_are_plays;
use crate::ordering::orders_are_plays;
use crate::playing::Playing;
use crate::recovering::recovers_are_plays;
use crate::ruling::rules_are_plays;
use fault_ports::CutRoads;
use hd_base::{BlockId, LinkIn, LinkOut};
use play_opening::PlayFault;
use play_scripts::standing_nodes_close;
use refusing_files::Refusing;
use script_lang::{Instruction, ScriptLine};
use std::alloc::{AllocError, Global};
use told_shelves::{ToldShelf, told_shelves_tell};
use writer_core::Command;

/// A command that a line gives to the client of a block.
pub(crate) struct Ordered {
    block: BlockId,
    command: Command,
}

/// The command of a line, if it has one.
fn command_of(line: &Instruction) -> Result<Option<Ordered>, AllocError>
    ensures { IfOk result (λ ordered. ordered ≡ ordered_by line.now) }
{
    let (block, command) = match line {
        Instruction::Create { block, members } => {
            let members = members.duplicate();
            (*block, Command::Create { members })
        }
        Instruction::Append { block, members } => {
            let members = members.duplicate();
            (*block, Command::Append { members })
        }
        Instruction::Write { block, bytes } => {
            let bytes = bytes.duplicate()?;
            (*block, Command::Write { bytes })
        }
        Instruction::Fill { block, count } => (*block, Command::Fill { count: *count }),
        Instruction::Hflush { block } => (*block, Command::Hflush),
        Instruction::Hsync { block } => (*block, Command::Hsync),
        Instruction::Close { block } => (*block, Command::Close),
        _ => return Ok(None),
    };
    Ok(Some(Ordered { block, command }))
}

impl<F: Refusing, I: LinkIn, O: LinkOut> Playing<F, I, O> {
    /// A line behind the first two is played. It fits those before it; a node starts, a reader asks, and a write is to
    /// fail, only over shelves that tell their files.
    pub fn line<S: ToldShelf<Drawer = F>, R: CutRoads<Inward = I, Outward = O>>(
        &mut self,
        alloc: Global,
        roads: &mut R,
        shelves: &mut [S],
        line: &ScriptLine,
    ) -> Result<(), PlayFault>
        requires playing { IsPlaying F.Files R.Roads I.LinkIn O.LinkOut roads.old self.old }
        requires serve { ShelvesServe S.Shelf shelves.old self.old }
        requires told { LineIsTold S.told line.now.instruction }
        ensures shows { LineShowsOver S.Shelf F.Files R.Roads I.LinkIn O.LinkOut line.now
            shelves.old shelves.new self.old self.new roads.old roads.new result }
        ensures shelves { ShelvesGoOn S.Shelf shelves.old shelves.new self.old self.new result }
        ensures pass { RoadsPass R.Roads roads.old roads.new }
    {
        told_shelves_tell::<S>();
        asks_are_plays::<F, I, O, R>();
        recovers_are_plays::<F, I, O, R>();
        arms_are_plays::<F, I, O, R>();
        match &line.instruction {
            Instruction::Start { node } => self.start(alloc, roads, shelves, *node),
            Instruction::Read {
                block,
                node,
                offset,
                count,
            } => self.ask(line.number, *block, *node, *offset, *count),
            Instruction::Recover {
                block,
                node,
                members,
            } => self.recover(line.number, *block, *node, members.duplicate()),
            Instruction::Fault { node, nth } => {
                self.arm(*node, *nth);
                Ok(())
            }
            instruction => self.other_line(alloc, roads, instruction),
        }
    }

    /// A line that neither starts a node, nor makes a write fail, nor asks to read or to recover is played.
    fn other_line<R: CutRoads<Inward = I, Outward = O>>(
        &mut self,
        alloc: Global,
        roads: &mut R,
        line: &Instruction,
    ) -> Result<(), PlayFault>
        requires playing { IsPlaying F.Files R.Roads I.LinkIn O.LinkOut roads.old self.old }
        requires other { is_start line.now ≡ false }
        requires arms_nothing { is_fault line.now ≡ false }
        requires asks_nothing { is_read line.now ≡ false }
        requires recovers_nothing { is_recovery line.now ≡ false }
        ensures shows { LineShows F.Files R.Roads I.LinkIn O.LinkOut line.now
            self.old self.new roads.old roads.new result }
        ensures sizes { KeepsSizes self.old.player.nodes self.new.player.nodes }
        ensures pass { RoadsPass R.Roads roads.old roads.new }
    {
        orders_are_plays::<F, I, O, R>();
        match command_of(line) {
            Ok(Some(Ordered { block, command })) => self.order(block, command),
            Ok(None) => self.event(alloc, roads, line),
            Err(_) => Err(PlayFault::Memory),
        }
    }

    /// A line that gives no command, starts no node, makes no write fail and asks nothing is played.
    fn event<R: CutRoads<Inward = I, Outward = O>>(
        &mut self,
        alloc: Global,
        roads: &mut R,
        line: &Instruction,
    ) -> Result<(), PlayFault>
        requires playing { IsPlaying F.Files R.Roads I.LinkIn O.LinkOut roads.old self.old }
        requires none { ordered_by line.now ≡ None }
        requires other { is_start line.now ≡ false }
        requires arms_nothing { is_fault line.now ≡ false }
        requires asks_nothing { is_read line.now ≡ false }
        requires recovers_nothing { is_recovery line.now ≡ false }
        ensures shows { LineShows F.Files R.Roads I.LinkIn O.LinkOut line.now
            self.old self.new roads.old roads.new result }
        ensures sizes { KeepsSizes self.old.player.nodes self.new.player.nodes }
        ensures pass { RoadsPass R.Roads roads.old roads.new }
    {
        rules_are_plays::<F, I, O, R>();
        match line {
            Instruction::Sums { block, rule } => {
                self.rule(*block, *rule);
                Ok(())
            }
            Instruction::Run { events } => self.run(alloc, roads, *events),
            Instruction::Settle => self.settle(alloc, roads),
            Instruction::Step { block, event } => self.step(alloc, roads, *block, *event),
            Instruction::Cut {
                block,
                connection,
                down,
                up,
            } => self.cut(roads, *block, *connection, *down, *up),
            Instruction::Stop { node } => self.stop(alloc, roads, *node),
            _ => Ok(()),
        }
    }

    /// The lines behind the first two of a script are played, one after the other, over the shelves of the nodes; then
    /// what is due befalls until nothing is. The lines fit, and each block that they create has a client; a node
    /// starts, a reader asks, and a write is to fail, only over shelves that tell their files.
    pub fn lines<S: ToldShelf<Drawer = F>, R: CutRoads<Inward = I, Outward = O>>(
        &mut self,
        alloc: Global,
        roads: &mut R,
        shelves: &mut [S],
        lines: &[ScriptLine],
    ) -> Result<(), PlayFault>
        requires ready { IsReady F.Files R.Roads I.LinkIn O.LinkOut lines.now (length shelves.old) roads.old self.old }
        requires serve { ShelvesServe S.Shelf shelves.old self.old }
        requires told { LinesAreTold S.told lines.now }
        ensures shows { LinesShow S.Shelf F.Files R.Roads I.LinkIn O.LinkOut lines.now
            shelves.old shelves.new self.old self.new roads.old roads.new result }
        ensures shelves { ShelvesGoOn S.Shelf shelves.old shelves.new self.old self.new result }
        ensures pass { RoadsPass R.Roads roads.old roads.new }
    {
        standing_nodes_close::<S, I, O>();
        for line in lines {
            self.line(alloc, roads, shelves, line)?;
        }
        self.settle(alloc, roads)
    }
}
