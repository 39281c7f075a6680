//! Names and headers from worked examples.

use hd_base::{BlockId, FileName, Stamp, SumKind, SumRule};
use meta_file::{
    Folder, MetaFault, NameFault, Named, data_name, header, meta_name, read_header, read_name,
};
use std::test::Fail;

#[test]
fn names_of_worked_examples(rt: HostRuntime) {
    let block = BlockId(1073741825);
    let table: [(FileName, &[u8]); 5] = [
        (
            data_name(BlockId(1073816389), Folder::Finalized),
            b"current/BP-1-127.0.0.1-1/current/finalized/subdir1/subdir3/blk_1073816389",
        ),
        (
            data_name(BlockId(1073816389), Folder::Finalized56),
            b"current/BP-1-127.0.0.1-1/current/finalized/subdir1/subdir35/blk_1073816389",
        ),
        (
            meta_name(block, Stamp(1001), Folder::Finalized),
            b"current/BP-1-127.0.0.1-1/current/finalized/subdir0/subdir0/blk_1073741825_1001.meta",
        ),
        (
            meta_name(block, Stamp(1001), Folder::Rbw),
            b"current/BP-1-127.0.0.1-1/current/rbw/blk_1073741825_1001.meta",
        ),
        (
            data_name(BlockId(7), Folder::Tmp),
            b"current/BP-1-127.0.0.1-1/tmp/blk_7",
        ),
    ];
    for (name, text) in &table {
        assert_eq!(rt; name.as_slice(), *text);
    }
}

#[test]
fn names_are_read(rt: HostRuntime) -> Result<(), Fail> {
    let block = BlockId(1073816389);
    let named = Named::Sums {
        block,
        stamp: Stamp(1001),
        folder: Folder::Finalized,
    };
    assert_eq!(rt;
        read_name(&meta_name(block, Stamp(1001), Folder::Finalized)),
        Ok(named)
    );
    let folder = Folder::Rbw;
    assert_eq!(rt;
        read_name(&data_name(block, folder)),
        Ok(Named::Body { block, folder })
    );
    let folder = Folder::Finalized56;
    let older = data_name(BlockId(1073816389), folder);
    let block = BlockId(1073816389);
    assert_eq!(rt; read_name(&older), Ok(Named::Body { block, folder }));
    let block = BlockId(1073741825);
    let folder = Folder::Finalized;
    let alike = data_name(block, Folder::Finalized56);
    assert_eq!(rt; read_name(&alike), Ok(Named::Body { block, folder }));
    let strays: [&[u8]; 5] = [
        b"current/BP-1-127.0.0.1-1/current/rbw/blk_07",
        b"current/BP-1-127.0.0.1-1/current/rbw/blk_7_1001",
        b"current/BP-1-127.0.0.1-1/current/rbw/blk_7_1001.metadata",
        b"current/BP-1-127.0.0.1-1/current/finalized/subdir1/subdir4/blk_1073816389",
        b"blk_7",
    ];
    for bytes in strays {
        let name = FileName::new(bytes).ok_or("a name")?;
        assert_eq!(rt; read_name(&name), Err(NameFault::Name));
    }
    Ok(())
}

/// The rule of a kind and a chunk size.
fn rule(kind: SumKind, chunk: u32) -> Result<SumRule, Fail> {
    Ok(SumRule::new(kind, chunk).ok_or("a rule")?)
}

#[test]
fn headers(rt: HostRuntime) -> Result<(), Fail> {
    let null = rule(SumKind::Null, 512)?;
    let crc32 = rule(SumKind::Crc32, 512)?;
    let crc32c = SumRule::default();
    assert_eq!(rt; header(null), [0x00, 0x01, 0x00, 0x00, 0x00, 0x02, 0x00]);
    assert_eq!(rt; header(crc32), [0x00, 0x01, 0x01, 0x00, 0x00, 0x02, 0x00]);
    assert_eq!(rt; header(crc32c), [0x00, 0x01, 0x02, 0x00, 0x00, 0x02, 0x00]);
    let file = b"\x00\x01\x01\x00\x00\x02\x00\xcb\xf4\x39\x26";
    assert_eq!(rt; read_header(file), Ok(crc32));
    let faults: [&[u8]; 4] = [
        b"\x00\x01\x02\x00\x00\x02",
        b"\x00\x02\x02\x00\x00\x02\x00",
        b"\x00\x01\x03\x00\x00\x02\x00",
        b"\x00\x01\x02\x00\x00\x00\x0f",
    ];
    for bytes in faults {
        assert_eq!(rt; read_header(bytes), Err(MetaFault::Header));
    }
    Ok(())
}
