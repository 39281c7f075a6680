//! What the lines of each script keep.

ghost use Rattle.play_scripts.specs.Fitting.{ScriptsFit};
ghost use Rattle.play_scripts.specs.Numbering.{AscendingDiffer};
ghost use Rattle.play_scripts.specs.Reads.{PlaysAskByNumber};
ghost use Rattle.play_scripts.specs.Recoveries.{PlaysRecoverByNumber};
ghost use Rattle.play_scripts.specs.Storms.{StormsFit};
ghost use Rattle.play_scripts.specs.Unplayed.{PlayedAreTold};

use script_lang::script_names_its_nodes;

/// The lines of each script fit: a play can take them.
pub fn scripts_fit()
    ensures { ScriptsFit }
{
    script_names_its_nodes();
}

/// Of lines that plays have the starts, the reads and the faults are over shelves that tell their files.
pub fn played_lines_are_told()
    ensures { PlayedAreTold }
{}

/// The script of each storm fits, where there are five shelves.
pub fn storms_fit()
    ensures { StormsFit }
{}

/// Of lines whose numbers ascend no two have one number.
pub fn ascending_lines_differ()
    ensures { AscendingDiffer }
{}

/// The readers of a play are the numbers of the lines that read, in their order.
pub fn plays_ask_by_number()
    ensures { PlaysAskByNumber }
{}

/// The primaries of a play are the numbers of the lines that recover, in their order.
pub fn plays_recover_by_number()
    ensures { PlaysRecoverByNumber }
{}
