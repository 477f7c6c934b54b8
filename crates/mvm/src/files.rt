// Files of a real folder, of which no clause says what it holds, and of stores over memory.
use mvm_base::{Line, List};
use mvm_outside::{FileRow, FolderStore, MemoryStore, Store, StoreFault};
use std::alloc::{AllocError, Global};
use std::fs;
use std::test::Fail;

// What a store answers at a name, with the number of bytes in place of the bytes.
fn length_of<S: Store>(
    store: &mut S,
    alloc: Global,
    name: &str,
) -> Result<Option<usize>, StoreFault> {
    let mut line = Line::new(alloc);
    if line.push_str(name).is_err() {
        return Err(StoreFault::OutOfMemory);
    }
    match store.read_file(alloc, &line) {
        Ok(Some(bytes)) => Ok(Some(bytes.len())),
        Ok(None) => Ok(None),
        Err(fault) => Err(fault),
    }
}

// What the folder answers at the name of a file of so many bytes.
fn length_in_folder(
    rt: &HostRuntime,
    length: usize,
) -> Result<Result<Option<usize>, StoreFault>, Fail> {
    let bytes = vec![in rt.alloc(); 7u8; length]?;
    fs::write(rt, "mvm-file", bytes.as_slice())?;
    let answer = length_of(&mut FolderStore::new(rt), rt.alloc(), "mvm-file");
    fs::remove_file(rt, "mvm-file")?;
    Ok(answer)
}

#[test]
fn files_of_the_folder(rt: HostRuntime) -> Result<(), Fail> {
    let mut store = FolderStore::new(&rt);
    let absent = length_of(&mut store, rt.alloc(), "mvm-absent");
    assert_eq!(rt; absent, Ok(None));
    let folder = length_of(&mut store, rt.alloc(), ".");
    assert_eq!(rt; folder, Err(StoreFault::Failed));
    assert_eq!(rt; length_in_folder(&rt, 0)?, Ok(Some(0)));
    assert_eq!(rt; length_in_folder(&rt, 1_048_576)?, Ok(Some(1_048_576)));
    assert_eq!(rt; length_in_folder(&rt, 1_048_577)?, Err(StoreFault::TooLong));
    Ok(())
}

// One file of three bytes.
fn one_file(alloc: Global) -> Result<List<FileRow>, AllocError> {
    let mut name = Line::new(alloc);
    name.push_str("A.class")?;
    let bytes = List::from_slice(alloc, &[1, 2, 3])?;
    let mut files = List::new(alloc);
    files.push(FileRow { name, bytes })?;
    Ok(files)
}

#[test]
fn files_of_memory(rt: HostRuntime) -> Result<(), Fail> {
    let mut store = MemoryStore::new(one_file(rt.alloc())?, List::new(rt.alloc()));
    assert_eq!(rt; length_of(&mut store, rt.alloc(), "A.class"), Ok(Some(3)));
    Ok(())
}
