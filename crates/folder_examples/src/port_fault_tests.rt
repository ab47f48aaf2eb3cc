// Each kind of call of the system fails once below each call of a vault, a source or a sink that makes it.
use crate::watch::Call;
use crate::watched::watch_files;
use edit_ports::{Sink, Source, Vault};
use pcm_base::COUNTER_LIMIT;
use project_folder::{FileSink, FileSource, FolderVault};
use std::alloc::AllocError;
use std::fs;
use std::io::ErrorKind;

/// The call of a vault that a test makes.
#[derive(Clone, Copy, Debug)]
enum Asked {
    Size,
    Read,
    Start,
    Append,
}

/// Calls on the sound `a`, which is there, and on the sound `b`, which is absent, each with the call of the system that
/// fails below it, and how many of that kind are served before.
static FAULTS: [(Asked, &'static str, Call, u32); 13] = [
    (Asked::Size, "a", Call::Look, 0),
    (Asked::Read, "a", Call::Look, 0),
    (Asked::Read, "a", Call::Open, 0),
    (Asked::Read, "a", Call::Read, 0),
    (Asked::Start, "a", Call::Look, 0),
    (Asked::Start, "a", Call::Open, 0),
    (Asked::Start, "a", Call::Resize, 0),
    (Asked::Start, "b", Call::Look, 0),
    (Asked::Start, "b", Call::Open, 0),
    (Asked::Append, "a", Call::Look, 0),
    (Asked::Append, "a", Call::Open, 0),
    (Asked::Append, "a", Call::Write, 0),
    (Asked::Append, "b", Call::Open, 0),
];

/// Calls of the system below the first start in a folder that is absent.
static FIRST_FAULTS: [(Call, u32); 6] = [
    (Call::Look, 0),
    (Call::Open, 0),
    (Call::MakeFolder, 0),
    (Call::MakeFolder, 1),
    (Call::Open, 1),
    (Call::Resize, 0),
];

// Whether the call succeeds.
fn ask<V: Vault>(vault: &mut V, asked: Asked, name: &str) -> bool {
    let mut buf = [0u8; 4];
    match asked {
        Asked::Size => vault.size(name).is_ok(),
        Asked::Read => vault.read_at(name, 0, &mut buf).is_ok(),
        Asked::Start => vault.start(name).is_ok(),
        Asked::Append => vault.append(name, b"xyz").is_ok(),
    }
}

// Whether the call of a new vault over the folder fails where the call of the system does, and is counted.
fn fails(
    rt: HostRuntime,
    asked: Asked,
    name: &str,
    call: Call,
    served: u32,
) -> Result<bool, AllocError> {
    let (files, watch) = watch_files(rt)?;
    let mut vault = FolderVault::new(files, rt.alloc(), "faults-sounds")?;
    watch.fail(call, served);
    Ok(!ask(&mut vault, asked, name) && vault.faults() == 1)
}

#[test]
fn each_fault_of_a_vault_is_counted(rt: HostRuntime) -> Result<(), AllocError> {
    let home = "faults-sounds";
    for (asked, name, call, served) in &FAULTS {
        let _ = fs::remove_dir_all(&rt, home);
        let mut before = FolderVault::new(rt, rt.alloc(), home)?;
        assert!(rt; ask(&mut before, Asked::Append, "a"));
        assert!(rt;
            fails(rt, *asked, name, *call, *served)?,
            "{asked:?} {name} {call:?} {served}"
        );
    }
    for (call, served) in &FIRST_FAULTS {
        let _ = fs::remove_dir_all(&rt, home);
        assert!(rt;
            fails(rt, Asked::Start, "a", *call, *served)?,
            "{call:?} {served}"
        );
    }
    let _ = fs::remove_dir_all(&rt, home);
    Ok(())
}

#[test]
fn short_calls_on_sounds_go_on(rt: HostRuntime) -> Result<(), AllocError> {
    let _ = fs::remove_dir_all(&rt, "faults-short");
    let (files, watch) = watch_files(rt)?;
    let mut vault = FolderVault::new(files, rt.alloc(), "faults-short")?;
    let mut buf = [0u8; 4];
    watch.most.set(1);
    assert!(rt; ask(&mut vault, Asked::Append, "a"));
    assert!(rt; matches!(vault.read_at("a", 0, &mut buf), Ok(3)));
    assert!(rt; buf.as_slice() == b"xyz\0".as_slice());
    // The sound is open, and its size is asked of that.
    watch.told.set(Some(COUNTER_LIMIT + 1));
    assert!(rt; vault.size("a").is_err() && vault.faults() == 1);
    watch.fail(Call::Look, 0);
    assert!(rt; vault.size("a").is_err() && vault.faults() == 2);
    let _ = fs::remove_dir_all(&rt, "faults-short");
    Ok(())
}

#[test]
fn each_fault_of_a_sink_is_counted(rt: HostRuntime) -> Result<(), AllocError> {
    let name = "faults-sink.raw";
    let _ = fs::remove_file(&rt, name);
    let (files, watch) = watch_files(rt)?;
    let mut sink = FileSink::new(files, rt.alloc(), "", name)?;
    watch.fail(Call::Open, 0);
    assert!(rt; sink.write(b"ab").is_err() && sink.faults() == 1);
    // An old file is found, looked at and emptied.
    assert!(rt; fs::write(&rt, name, b"old".as_slice()).is_ok());
    watch.fail(Call::Look, 0);
    assert!(rt; sink.write(b"ab").is_err() && sink.faults() == 2);
    watch.fail(Call::Open, 1);
    assert!(rt; sink.write(b"ab").is_err() && sink.faults() == 3);
    watch.fails.set(None);
    watch.most.set(1);
    assert!(rt; matches!(sink.write(b"ab"), Ok(1)));
    watch.most.set(0);
    assert!(rt; sink.write(b"b").is_err() && sink.faults() == 4);
    assert!(rt; matches!(sink.write(b""), Ok(0)));
    watch.kind.set(ErrorKind::StorageFull);
    watch.fail(Call::Write, 0);
    assert!(rt; sink.write(b"b").is_err() && sink.faults() == 5);
    let _ = fs::remove_file(&rt, name);
    Ok(())
}

#[test]
fn each_fault_of_a_source_is_counted(rt: HostRuntime) -> Result<(), AllocError> {
    let name = "faults-source.raw";
    assert!(rt; fs::write(&rt, name, b"a".as_slice()).is_ok());
    let (files, watch) = watch_files(rt)?;
    let mut source = FileSource::new(files, rt.alloc(), "", name)?;
    let mut buf = [0u8; 4];
    watch.fail(Call::Look, 0);
    assert!(rt; source.read(&mut buf).is_err() && source.faults() == 1);
    watch.fail(Call::Open, 0);
    assert!(rt; source.read(&mut buf).is_err() && source.faults() == 2);
    watch.fails.set(None);
    assert!(rt; matches!(source.read(&mut buf), Ok(1)));
    watch.fail(Call::Read, 0);
    assert!(rt; source.read(&mut buf).is_err() && source.faults() == 3);
    watch.fails.set(None);
    assert!(rt; matches!(source.read(&mut buf), Ok(0)));
    let _ = fs::remove_file(&rt, name);
    Ok(())
}
