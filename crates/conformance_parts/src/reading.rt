//! The faults of the table, texts that are cut short, and what memory is asked for. That a scene is what its text spells is proved.

use refusing::Refusing;
use scenetext::read;
use std::alloc::Global;
use std::process::Abort;
use std::test::Fail;

const FOUR_TILES: &str = "target 33 33
i vb 0 0 0 1 1 1 1 2162688 0 0 2 2 2 2 0 2162688 0 3 3 3 3 2162688 2162688 0 4 4 4 4
i ib 1 3 2
i topology 4
i draw 3 0
i drawi 3 0 0
";

// A cut inside a line, or one that drops only its line feed, is a fault of form in that line.
#[test]
fn cut_short(rt: HostRuntime) {
    let text = FOUR_TILES.as_bytes();
    for i in 0..text.len() {
        let front = &text[..i];
        let ended = front.iter().filter(|byte| **byte == b'\n').count() as u64;
        let fault = if front.is_empty() {
            Some((1, 102))
        } else if front.ends_with(b"\n") {
            None
        } else {
            Some((ended.saturating_add(1), 101))
        };
        assert!(rt; read(rt.alloc(), front).err() == fault, "{i} bytes");
    }
}

// Each line is the number of a fault and a first line that has it.
const FIRST_LINES: &str = "101  target 1 1
101 target 1 1\x20
101 target  1 1
101 target 1 1\r
101 target 1\t1
101 target 1 1\x7f
101 target 1 \u{e9}
102 Target 1 1
102 i flush
102 targets
105 target
105 target 1
105 target 01 1 1
106 target 1 01
106 target 00 1
106 target -1 1
106 target +1 1
106 target 1 0x1
106 target 1 4294967296
106 target 99999999999 1";

// And a later line; a word that no device takes yet is no command.
const LATER_LINES: &str = "101\x20
101  i flush
101 i flush\x20
101 i  flush
101 i flush\r
103 target 1 1
103 I flush
103 d8 flush
103 d finish 0
103 d00 finish 0
104 i
104 d0
104 i Flush
104 i finish 0
104 d0 exec d0 0 1
104 d0 flush
104 d0 pixel 0 0
104 d0 query 0
104 i begins 0
104 i predication
105 i predicate 0
105 i predicate 0 1 0
106 i predicate 0 2
106 i predicate d0 1
105 i vb a b
105 i vb 1 2 3 4 5 6 7 8
105 i topology
105 i topology x x
105 i raster 3 0
105 i raster 3 0 0 1 1
105 i raster 3 0 0 0 1
105 i scissor 0 0 0
105 i ds 1 1 2 0 255 255 1 1 1 8 1 1 1 8
105 i ds 1 1 2 0 255 255 1 1 1 8 1 1 1 8 0 0
105 i blend 0 4
105 i blend 0 4 15 0
105 i draw 3 0 0
105 i drawi 3 0
105 i clearc 1 2 3
105 i cleards 1
105 i begin
105 d0 begin 0 0
105 i end
105 d0 end x y
105 i query
105 i query 0 0
105 d0 finish
105 i flush 0
105 i exec d9 0
105 i pixel 0 0 0
106 i vb -0 0 0 0 0 0 0
106 i vb 2147483648 0 0 0 0 0 0
106 i vb 0 -2147483649 0 0 0 0 0
106 i vb 0 0 -1 0 0 0 0
106 i vb 0 0 0 256 0 0 0
106 i vb 0 0 0 0 0 0 0 0 0 0 0 0 0 x
106 i ib 0 65536
106 i topology 3
106 i topology 6
106 i raster 0 0 0
106 i raster 4 0 0
106 i raster 3 2 0
106 i raster 3 0 2
106 i raster 4 0 0 1
106 i raster 3 0 0 0
106 i raster 3 0 0 -0
106 i raster 3 0 0 2147483648
106 i raster 3 0 0 -2147483649
106 i scissor 0 0 0 4294967296
106 i ds 2 1 2 0 255 255 1 1 1 8 1 1 1 8 0
106 i ds 1 2 2 0 255 255 1 1 1 8 1 1 1 8 0
106 i ds 1 1 0 0 255 255 1 1 1 8 1 1 1 8 0
106 i ds 1 1 9 0 255 255 1 1 1 8 1 1 1 8 0
106 i ds 1 1 2 2 255 255 1 1 1 8 1 1 1 8 0
106 i ds 1 1 2 0 256 255 1 1 1 8 1 1 1 8 0
106 i ds 1 1 2 0 255 256 1 1 1 8 1 1 1 8 0
106 i ds 1 1 2 0 255 255 0 1 1 8 1 1 1 8 0
106 i ds 1 1 2 0 255 255 1 9 1 8 1 1 1 8 0
106 i ds 1 1 2 0 255 255 1 1 0 8 1 1 1 8 0
106 i ds 1 1 2 0 255 255 1 1 1 9 1 1 1 8 0
106 i ds 1 1 2 0 255 255 1 1 1 8 9 1 1 8 0
106 i ds 1 1 2 0 255 255 1 1 1 8 1 0 1 8 0
106 i ds 1 1 2 0 255 255 1 1 1 8 1 1 9 8 0
106 i ds 1 1 2 0 255 255 1 1 1 8 1 1 1 0 0
106 i ds 1 1 2 0 255 255 1 1 1 8 1 1 1 8 256
106 i blend 2 4 15
106 i blend 0 16 15
106 i blend 0 4 16
106 i draw 4294967296 0
106 i drawi 0 0 2147483648
106 i drawi 0 0 -
106 i clearc 0 0 0 256
106 i cleards 0 256
106 i begin 4294967296
106 d0 begin -1
106 i end 01
106 d7 end 4294967296
106 i query x
106 i query 4294967296
106 d0 finish 2
106 i exec d9 0 1
106 i exec 0 0 1
106 i exec d0 0 2
106 i pixel 0 0.5";

/// The fault of a line behind others.
fn fault_behind(alloc: Global, before: &str, line: &str) -> Result<Option<(u64, u32)>, Fail> {
    let text = format!(in alloc; "{before}{line}\n")?;
    Ok(read(alloc, text.as_str().as_bytes()).err())
}

fn assert_faults(
    rt: &impl Abort,
    alloc: Global,
    before: &str,
    table: &str,
    at: u64,
) -> Result<(), Fail> {
    for row in table.split('\n') {
        let (number, line) = row.split_once(' ').ok_or("a number and a line")?;
        let number = number.parse::<u32>()?;
        let fault = fault_behind(alloc, before, line)?;
        assert!(rt; fault == Some((at, number)), "at {row}");
    }
    Ok(())
}

#[test]
fn faults_of_one_line(rt: HostRuntime) -> Result<(), Fail> {
    assert_faults(&rt, rt.alloc(), "", FIRST_LINES, 1)?;
    assert_faults(&rt, rt.alloc(), "target 1 1\n", LATER_LINES, 2)
}

// A growth is of the lines read so far, or of the buffer in a line: its values, and what its owners share.
#[test]
fn each_growth_refused(rt: HostRuntime) {
    for (n, line) in [(1, 2), (2, 2), (3, 2), (4, 3), (5, 3), (6, 6)] {
        let alloc = Refusing::new(rt.alloc(), n);
        let refused = read(&alloc, FOUR_TILES.as_bytes()).err();
        assert!(rt; refused == Some((line, 1)), "growth {n}");
        assert!(rt; alloc.refused() && alloc.count() == n);
    }
    let alloc = Refusing::new(rt.alloc(), 7);
    assert!(rt; read(&alloc, FOUR_TILES.as_bytes()).is_ok());
    assert!(rt; alloc.count() == 6);
}
