// Entries of 64 KiB, moved by each function of column that moves entries: 256 of them would not fit the stack, of which no clause speaks.
#![tactic(auto)]

ghost use Rattle.std.specs.Prelude.{replicate};
ghost use Rattle.std.proofs.Common.{rules};

use column::{Entry, close_gap, move_front, open_gap};
use show::Sink;

#[derive(Clone, Copy)]
struct Large {
    cells: [u32; 16384],
}

impl Entry for Large {
    ghost zero = { record { cells = replicate 16384 0 } };

    fn zero() -> Large {
        Large { cells: [0; 16384] }
    }

    ghost always_copied = { Prim.search rules };

    ghost same_copied = { Prim.search rules };
}

// An entry whose cells are all x.
fn filled(x: u32) -> Large {
    Large { cells: [x; 16384] }
}

// The last cell of each entry.
fn print(out: Sink, call: &str, col: &[Large; 4]) {
    let [a, b, c, d] = col;
    write!(
        out,
        "{call}: {} {} {} {}\n",
        a.cells[16383], b.cells[16383], c.cells[16383], d.cells[16383]
    );
}

fn main(rt: HostRuntime) {
    let out = Sink::Output(rt.stdout());
    let mut col = [filled(1), filled(2), filled(3), filled(4)];
    open_gap(&mut col[..], 1, 3, 1);
    print(out, "open_gap 1 3 1", &col);
    close_gap(&mut col[..], 0, 4, 2);
    print(out, "close_gap 0 4 2", &col);
    move_front(&mut col[..], 1, 2);
    print(out, "move_front 1 2", &col);
}
