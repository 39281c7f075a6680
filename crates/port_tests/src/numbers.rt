//! Numbers, and what is printed.

use hd_base::{ByteList, FileName, Members, NodeId, ReplicaState, Status, SumKind, SumRule};
use std::test::Fail;

#[test]
fn numbers_and_texts(rt: HostRuntime) -> Result<(), Fail> {
    assert_eq!(rt; ReplicaState::from_number(3), Some(ReplicaState::Rur));
    assert_eq!(rt; Status::from_varint(0x1_0000_0006), Status::ChecksumOk);
    assert_eq!(rt;
        SumRule::default(),
        SumRule::new(SumKind::Crc32c, 512).ok_or("a rule")?
    );
    let name = FileName::new(b"blk_7").ok_or("a name")?;
    let members = Members::new(&[NodeId(2)]).ok_or("a member")?;
    let text = format!(in rt.alloc(); "{name:?} {members:?} {}", ReplicaState::Rwr)?;
    assert_eq!(rt; text.as_str(), "\"blk_7\" [NodeId(2)] RWR");
    let list = ByteList::from_slice(rt.alloc(), b"12")?;
    assert_eq!(rt; list.duplicate()?, list);
    Ok(())
}
