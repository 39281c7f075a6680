//! The script of a storm, as another program draws it.

use script_lang::{Script, read_script, storm_script};
use std::test::Fail;

/// The lines of `storm 7` up to its first cut.
const FRONT: &[u8] = b"nodes 5\nseed 7\n\
create 1073741825 3,4,0\n\
create 1073741826 3,4,0\n\
create 1073741827 3,4,0\n\
create 1073741828 0,1,2\n\
create 1073741829 0,1,2\n\
create 1073741830 4,0,1\n\
create 1073741831 1,2,3\n\
create 1073741832 3,4,0\n\
fill 1073741825 65536\n\
hflush 1073741825\n\
run 135\n\
cut 1073741825 0 0 2\n";

/// Other lines of it, behind a head: the first fault, the first stop with its start, the second recovery, and the last
/// close.
const OTHERS: &[u8] = b"nodes 5\nseed 7\ncreate 1073741832 0\n\
fault 4 1\nstop 0\nrun 50\nstart 0\nrecover 1073741832 3 0,1,2,3,4\nclose 1073741832\n";

/// Where the lines of `OTHERS` behind its create stand in the storm.
const PLACES: [usize; 6] = [30, 55, 56, 57, 240, 475];

/// Whether a line of a script says what a line of another one says.
fn says_same(one: &Script, place: usize, other: &Script, other_place: usize) -> bool {
    match (one.as_slice().get(place), other.as_slice().get(other_place)) {
        (Some(line), Some(same)) => line.instruction == same.instruction,
        _ => false,
    }
}

#[test]
fn a_storm_is_drawn_from_its_number(rt: HostRuntime) -> Result<(), Fail> {
    let storm = storm_script(rt.alloc(), 7)?;
    assert_eq!(rt; storm.len(), 476);
    let front = read_script(rt.alloc(), FRONT, 5)?;
    for place in 0..front.len() {
        assert!(rt; says_same(&storm, place, &front, place));
    }
    Ok(())
}

#[test]
fn a_storm_has_its_failures(rt: HostRuntime) -> Result<(), Fail> {
    let storm = storm_script(rt.alloc(), 7)?;
    let others = read_script(rt.alloc(), OTHERS, 5)?;
    for index in 0..PLACES.len() {
        assert!(rt; says_same(&storm, PLACES[index], &others, index + 3));
    }
    Ok(())
}
