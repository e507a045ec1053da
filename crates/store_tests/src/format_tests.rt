use image_check::refusal::Refusal;
use media::lagging::LaggingMemory;
use memory::memory::Memory;
use std::alloc::Global;
use std::process::Abort;
use std::test::Fail;
use store::format::format;

// What format answers on a blank memory of so many words, with power on.
fn answer(rt: &impl Abort, heap: Global, words: usize) -> Result<Result<(), Refusal>, Fail> {
    let mut memory = LaggingMemory::new(heap, words, 85)?;
    assert!(rt; memory.restart());
    Ok(format(&mut memory))
}

#[test]
fn the_size_is_32_times_6_to_4096(rt: HostRuntime) -> Result<(), Fail> {
    let wrong = Err(Refusal::WrongSize);
    let cases = [
        (0, wrong),
        (186, wrong),
        (191, wrong),
        (192, Ok(())),
        (193, wrong),
        (224, Ok(())),
        (131072, Ok(())),
        (131073, wrong),
        (131104, wrong),
    ];
    for (words, expected) in cases {
        assert_eq!(rt; answer(&rt, rt.alloc(), words)?, expected);
    }
    Ok(())
}

#[test]
fn the_first_word_is_the_count_of_blocks(rt: HostRuntime) -> Result<(), Fail> {
    let mut memory = LaggingMemory::new(rt.alloc(), 224, 85)?;
    assert!(rt; memory.restart());
    assert_eq!(rt; memory.store(8, 2), Ok(()));
    assert_eq!(rt; memory.store(95, 7), Ok(()));
    assert_eq!(rt; memory.store(96, 7), Ok(()));
    assert_eq!(rt; format(&mut memory), Ok(()));
    assert_eq!(rt; memory.load(0), Ok(7));
    assert_eq!(rt; memory.load(8), Ok(0));
    assert_eq!(rt; memory.load(95), Ok(0));
    assert_eq!(rt; memory.load(96), Ok(7));
    Ok(())
}

#[test]
fn without_power_nothing_is_formatted(rt: HostRuntime) -> Result<(), Fail> {
    let mut memory = LaggingMemory::new(rt.alloc(), 192, 85)?;
    assert_eq!(rt; format(&mut memory), Err(Refusal::PowerLost));
    assert!(rt; memory.restart());
    assert_eq!(rt; memory.load(0), Ok(0));
    Ok(())
}
