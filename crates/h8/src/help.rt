// What `h8` alone and `h8 help` print.
use std::io;

pub fn show_help(rt: &impl Print) -> io::Result<()> {
    rt.write_all(
        b"h8: how long a routine of an H8/300H ROM can take, in states; every answer is that of a proved library

  h8 figure ROM ENTRY [GAP]      the longest way from ENTRY to its RTS, in states; whether it fits GAP states
  h8 way ROM ENTRY [--deep]      that way, instruction by instruction; with --deep through the routines it calls
  h8 list ROM [FROM [TO]]        a listing of the places FROM to TO, with the figure of each
  h8 run ROM ENTRY --ram BASE LENGTH [--budget N] [--stop ADDRESS] [--er N VALUE]...
                                 runs from ENTRY; prints registers, flags, steps, states and why it ended
  h8 run ... --routine           the same up to the return of the routine at ENTRY; a figure holds for such runs
  h8 run ... --trace             before that a line for each step: its states, and what it read and wrote
  h8 replay ROM ENTRY RECORDING --ram BASE LENGTH [--er N VALUE]...
                                 runs from ENTRY beside a recording; says which record differs first, and in what
                                 (with - for RECORDING, beside what comes in by a pipe)
  h8 help                        this text

ROM is a file, its first byte at address 0: an even number of bytes, at most 524288.
Numbers are decimal or 0x. With --plain an answer is printed as one name and value a line.
With --port BASE END BITS there are ports from BASE to below END, on a bus of 8 or 16 bits: data there takes more states.
In a listing H'0100 is the maker's way to write 0x0100.

A refusal says why there is no figure: its number, the place, what stands there and what that means.
The figure counts every path, also one that no data takes; interrupts and seconds are not in it.

The sample's sheet routine begins at 0x0100; between two sheets there are 160 states:

  ./h8 run samples/sheet.bin 0x100 --ram 0xffef10 4096 --er 7 0xffff0c --stop 0     an ordinary sheet: 110 states
  ./h8 figure samples/sheet.bin 0x100 160                                           the longest way: 194
  ./h8 way samples/sheet.bin 0x100                                                  where they go
",
    )
}
