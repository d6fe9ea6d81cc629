// Data accesses at the edges, one a line: the access as it was asked for, then the value or the refusal's number and place,
// and after a write the bytes of working memory; then boards, areas on boards, and sites by themselves, right and wrong.
// `stdout` was worked out by hand from document 01, and for the areas from document 02, W5.
#![tactic(auto)]

use arith::Width;
use arith::Width::{Byte, Long, Word};
use memory::Board;
use refusal::Refusal;
use site::{Area, Site};
use std::io;

// A width's name, and the number of digits of a value that is so wide.
fn shape(w: Width) -> (&'static str, usize) {
    match w {
        Byte => ("byte", 2),
        Word => ("word", 4),
        Long => ("long", 8),
    }
}

fn show_refusal(rt: &impl Print, refusal: Refusal) -> io::Result<()> {
    print!(rt; ": refused {} at {:06x}", refusal.number(), refusal.place())
}

fn show_verdict(rt: &impl Print, good: bool) -> io::Result<()> {
    let verdict = if good { "good" } else { "wrong" };
    println!(rt; ": {verdict}")
}

fn ports((base, end, bus): (u32, u32, u32)) -> Site {
    Site {
        area: Area { base, end, bus },
    }
}

fn show_site(rt: &impl Print, site: Site) -> io::Result<()> {
    let Area { base, end, bus } = site.area;
    print!(rt; "{base:08x} {end:08x} {bus}")
}

// Read-only memory, and working memory from `base` on.
#[derive(Clone, Copy)]
struct Memories<'a> {
    base: u32,
    rom: &'a [u8],
    ram: &'a [u8],
}

impl Memories<'_> {
    fn read(self, rt: &impl Print, w: Width, a: u32) -> io::Result<()> {
        let (name, digits) = shape(w);
        print!(rt; "read {name} {a:08x}")?;
        let board = memory::plain(self.base);
        match memory::read(w, board, self.rom, self.ram, a, &mut 0) {
            Ok(x) => print!(rt; ": {x:0digits$x}")?,
            Err(refusal) => show_refusal(rt, refusal)?,
        }
        println!(rt; "")
    }

    fn read_each(self, rt: &impl Print, places: &[(Width, u32)]) -> io::Result<()> {
        for &(w, a) in places {
            self.read(rt, w, a)?;
        }
        Ok(())
    }

    fn show(self, rt: &impl Print) -> io::Result<()> {
        show_board(rt, self.base, self.rom.len(), self.ram.len())
    }

    fn check(self, rt: &impl Print) -> io::Result<()> {
        check_board(rt, self.base, self.rom, self.ram)
    }

    // Areas on this board.
    fn check_each(self, rt: &impl Print, areas: &[(u32, u32, u32)]) -> io::Result<()> {
        for &area in areas {
            let site = ports(area);
            print!(rt; "area ")?;
            show_site(rt, site)?;
            print!(rt; ", ")?;
            self.show(rt)?;
            let board = Board {
                base: self.base,
                site,
            };
            show_verdict(rt, memory::good_board(board, self.rom, self.ram))?;
        }
        Ok(())
    }
}

fn show_board(rt: &impl Print, base: u32, rom: usize, ram: usize) -> io::Result<()> {
    print!(rt; "board {base:08x} {rom} {ram}")
}

// By its three values: so the compiler sees that of the memories only the lengths matter, and fills none.
fn check_board(rt: &impl Print, base: u32, rom: &[u8], ram: &[u8]) -> io::Result<()> {
    show_board(rt, base, rom.len(), ram.len())?;
    show_verdict(rt, memory::good_board(memory::plain(base), rom, ram))
}

fn write(rt: &impl Print, w: Width, base: u32, ram: &mut [u8], a: u32, x: u32) -> io::Result<()> {
    let (name, _) = shape(w);
    print!(rt; "write {name} {a:08x} {x:08x}")?;
    match memory::write(w, memory::plain(base), ram, a, x, &mut 0) {
        Ok(()) => print!(rt; ": stored")?,
        Err(refusal) => show_refusal(rt, refusal)?,
    }
    print!(rt; ",")?;
    for byte in ram.iter() {
        print!(rt; " {byte:02x}")?;
    }
    println!(rt; "")
}

fn write_each(
    rt: &impl Print,
    base: u32,
    ram: &mut [u8],
    values: &[(Width, u32, u32)],
) -> io::Result<()> {
    for &(w, a, x) in values {
        write(rt, w, base, ram, a, x)?;
    }
    Ok(())
}

// Of the ordinary board: read-only memory 000000 to 000005, working memory FFEF10 to FFEF15.
const FOUND: [(Width, u32); 6] = [
    (Byte, 0x00FFEF11),
    (Word, 0x00FFEF11),
    (Long, 0x00FFEF13),
    (Long, 0x7B000001),
    (Byte, 0xFFFFEF15),
    (Byte, 0x00000005),
];

const NOT_FOUND: [(Width, u32); 7] = [
    (Byte, 0x00FFEF16),
    (Byte, 0x00FFEF0F),
    (Word, 0x00FFEF0F),
    (Byte, 0x01000006),
    (Long, 0x00000005),
    (Long, 0x00FFEF15),
    (Long, 0x00FFEF0F),
];

const WRITTEN: [(Width, u32, u32); 3] = [
    (Byte, 0x00FFEF15, 0x00000B5C),
    (Word, 0x34FFEF13, 0x0001C2D3),
    (Long, 0x00FFEF11, 0xE4F50617),
];

const NOT_WRITTEN: [(Width, u32, u32); 4] = [
    (Long, 0x00FFEF14, 0x01020304),
    (Long, 0x00FFEF0F, 0x01020304),
    (Word, 0x00FFEF17, 0x00000102),
    (Byte, 0x00000003, 0x00000001),
];

fn ordinary(rt: &impl Print) -> io::Result<()> {
    let base = 0xFFEF10;
    let rom = &[0x10, 0x11, 0x12, 0x13, 0x14, 0x15];
    let mut ram = [0xA0, 0xA1, 0xA2, 0xA3, 0xA4, 0xA5];
    let before = Memories {
        base,
        rom,
        ram: &ram,
    };
    before.read_each(rt, &FOUND)?;
    before.read_each(rt, &NOT_FOUND)?;
    write_each(rt, base, &mut ram, &WRITTEN)?;
    write_each(rt, base, &mut ram, &NOT_WRITTEN)?;
    let after = Memories {
        base,
        rom,
        ram: &ram,
    };
    after.read(rt, Long, 0x00FFEF10)
}

// Working memory FFFFFC to FFFFFF: a longword at FFFFFE goes on at 000000.
fn at_the_top(rt: &impl Print) -> io::Result<()> {
    let base = 0xFFFFFC;
    let rom = &[0x10, 0x11, 0x12, 0x13];
    let mut ram = [0xA0, 0xA1, 0xA2, 0xA3];
    let before = Memories {
        base,
        rom,
        ram: &ram,
    };
    before.read_each(
        rt,
        &[
            (Byte, 0x00FFFFFF),
            (Word, 0x00FFFFFF),
            (Long, 0x00FFFFFE),
            (Long, 0xFFFFFFFF),
            (Long, 0x00FFFFFA),
        ],
    )?;
    write_each(
        rt,
        base,
        &mut ram,
        &[
            (Long, 0x00FFFFFE, 0x01020304),
            (Word, 0xFFFFFFFF, 0x0000B6B7),
            (Long, 0x00FFFFFD, 0xC0C1C2C3),
        ],
    )
}

// Working memory begins where read-only memory ends.
fn at_the_seam(rt: &impl Print) -> io::Result<()> {
    let base = 4;
    let rom = &[0x10, 0x11, 0x12, 0x13];
    let mut ram = [0xA0, 0xA1, 0xA2, 0xA3];
    let before = Memories {
        base,
        rom,
        ram: &ram,
    };
    before.read_each(rt, &[(Long, 0x00000003), (Word, 0x00000005)])?;
    write_each(
        rt,
        base,
        &mut ram,
        &[
            (Long, 0x00000002, 0x01020304),
            (Byte, 0x00000004, 0x00000077),
        ],
    )
}

fn with_empty_memories(rt: &impl Print) -> io::Result<()> {
    let base = 0;
    let none: &[u8] = &[];
    let two: &[u8] = &[0xA0, 0xA1];
    for (rom, ram, w, a) in [
        (none, none, Byte, 0x00000000),
        (two, none, Word, 0x00000001),
        (none, two, Long, 0x00000000),
    ] {
        Memories { base, rom, ram }.read(rt, w, a)?;
    }
    write(rt, Word, base, &mut [0xA0, 0xA1], 0x01000001, 0x12345678)
}

fn boards(rt: &impl Print) -> io::Result<()> {
    let none: &[u8] = &[];
    let three: &[u8] = &[0; 3];
    let four: &[u8] = &[0; 4];
    for (base, rom, ram) in [
        (0, none, none),
        (4, four, four),
        (2, four, four),
        (5, four, four),
        (4, three, four),
        (4, four, three),
        (0xFFFFFC, four, four),
        (0xFFFFFE, four, four),
        (0x1000000, four, none),
        (0x1000002, four, none),
    ] {
        Memories { base, rom, ram }.check(rt)?;
    }
    Ok(())
}

fn large_boards(rt: &impl Print) -> io::Result<()> {
    let code = [0; 524288];
    let long_code = [0; 524290];
    let data = [0; 65536];
    let long_data = [0; 65538];
    with_arrays(rt, &code, &long_code, &data, &long_data)
}

// Of a function of its own, as `long_sites` below: a literal as long as the longest code is more than a proof can compute with.
fn with_arrays(
    rt: &impl Print,
    code: &[u8; 524288],
    long_code: &[u8; 524290],
    data: &[u8; 65536],
    long_data: &[u8; 65538],
) -> io::Result<()> {
    let base = 0x100000;
    check_board(rt, base, code, data)?;
    check_board(rt, base, long_code, data)?;
    check_board(rt, base, code, long_data)
}

const RIGHT_AREAS: [(u32, u32, u32); 6] = [
    (0x1000, 0x1010, 8),
    (0x1000, 0x1010, 16),
    (0x1004, 0x1006, 16),
    (0x1000, 0x1000, 8),
    (0x1006, 0x1006, 8),
    (0x1010, 0x1010, 8),
];

// Each is wrong in one thing.
const WRONG_AREAS: [(u32, u32, u32); 9] = [
    (0x0FFE, 0x0FFE, 8),
    (0x1012, 0x1012, 8),
    (0x0FFE, 0x1004, 8),
    (0x100C, 0x1012, 8),
    (0x1001, 0x1004, 8),
    (0x1004, 0x1007, 8),
    (0x1008, 0x1006, 8),
    (0x01001000, 0x01001004, 8),
    (0x1004, 0xFFFFFFFE, 8),
];

const WRONG_WIDTHS: [(u32, u32, u32); 7] = [
    (0x1004, 0x1006, 0),
    (0x1004, 0x1006, 1),
    (0x1004, 0x1006, 9),
    (0x1004, 0x1006, 15),
    (0x1004, 0x1006, 24),
    (0x1004, 0x1006, 32),
    (0x1000, 0x1000, 0),
];

// Working memory 001000 to 00100F.
fn areas(rt: &impl Print) -> io::Result<()> {
    let board = Memories {
        base: 0x1000,
        rom: &[0; 4],
        ram: &[0; 16],
    };
    board.check_each(rt, &RIGHT_AREAS)?;
    board.check_each(rt, &WRONG_AREAS)?;
    board.check_each(rt, &WRONG_WIDTHS)
}

// Where working memory is empty, ends at 2^24, begins where read-only memory ends, or is as long as it may be.
fn areas_at_the_limits(rt: &impl Print) -> io::Result<()> {
    let none: &[u8] = &[];
    let four: &[u8] = &[0; 4];
    let data: &[u8] = &[0; 65536];
    for (base, ram, area) in [
        (0x1000, none, (0x1000, 0x1000, 8)),
        (0x1000, none, (0x1000, 0x1002, 8)),
        (0xFFFFFC, four, (0xFFFFFC, 0x1000000, 8)),
        (0xFFFFFC, four, (0x1000000, 0x1000000, 8)),
        (0x1000000, none, (0x1000000, 0x1000000, 8)),
        (4, four, (0x0004, 0x0008, 16)),
        (4, four, (0x0002, 0x0006, 16)),
        (2, four, (0x0004, 0x0006, 16)),
        (0x100000, data, (0x100000, 0x110000, 16)),
        (0x100000, data, (0x100000, 0x110002, 16)),
    ] {
        Memories {
            base,
            rom: four,
            ram,
        }
        .check_each(rt, &[area])?;
    }
    Ok(())
}

fn check_sites(rt: &impl Print, rom: &[u8], areas: &[(u32, u32, u32)]) -> io::Result<()> {
    for &area in areas {
        let site = ports(area);
        print!(rt; "site ")?;
        show_site(rt, site)?;
        print!(rt; ", code {}", rom.len())?;
        show_verdict(rt, memory::could_carry(site, rom))?;
    }
    Ok(())
}

const AT_THE_END_OF_CODE: [(u32, u32, u32); 5] = [
    (0x0004, 0x0004, 8),
    (0x0002, 0x0002, 8),
    (0x0002, 0x0006, 8),
    (0x0004, 0x10004, 16),
    (0x0004, 0x10006, 16),
];

const AT_THE_END_OF_PLACES: [(u32, u32, u32); 5] = [
    (0xFF0000, 0x1000000, 8),
    (0xFEFFFE, 0x1000000, 8),
    (0xFFFFFE, 0x1000002, 8),
    (0x1000000, 0x1000000, 8),
    (0x1000002, 0x1000002, 8),
];

const WRONG_SITES: [(u32, u32, u32); 6] = [
    (0x1001, 0x1004, 8),
    (0x1004, 0x1007, 8),
    (0x1008, 0x1006, 8),
    (0xFFFFFFFE, 0x1006, 8),
    (0x1004, 0x1006, 0),
    (0x1004, 0x1006, 24),
];

// A site needs no more working memory than its area.
fn sites_with_short_code(rt: &impl Print) -> io::Result<()> {
    check_sites(rt, &[], &[(0x0000, 0x0000, 8)])?;
    check_sites(rt, &[0; 3], &[(0x1004, 0x1006, 8)])?;
    check_sites(rt, &[0; 4], &AT_THE_END_OF_CODE)?;
    check_sites(rt, &[0; 4], &AT_THE_END_OF_PLACES)?;
    check_sites(rt, &[0; 4], &WRONG_SITES)
}

const AT_THE_END_OF_LONG_CODE: [(u32, u32, u32); 4] = [
    (0x80000, 0x80000, 8),
    (0x80000, 0x90000, 8),
    (0x7FFFE, 0x80000, 8),
    (0x100000, 0x100000, 8),
];

fn sites_with_long_code(rt: &impl Print) -> io::Result<()> {
    let code = [0; 524288];
    let long_code = [0; 524290];
    long_sites(rt, &code, &long_code)
}

fn long_sites(rt: &impl Print, code: &[u8; 524288], long_code: &[u8; 524290]) -> io::Result<()> {
    check_sites(rt, &code[..], &AT_THE_END_OF_LONG_CODE)?;
    check_sites(rt, &long_code[..], &[(0x100000, 0x100000, 8)])
}

fn main(rt: HostRuntime) -> io::Result<()> {
    ordinary(&rt)?;
    at_the_top(&rt)?;
    at_the_seam(&rt)?;
    with_empty_memories(&rt)?;
    boards(&rt)?;
    large_boards(&rt)?;
    areas(&rt)?;
    areas_at_the_limits(&rt)?;
    sites_with_short_code(&rt)?;
    sites_with_long_code(&rt)
}
