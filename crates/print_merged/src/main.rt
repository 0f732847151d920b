// Reads two price lists, the shipped one on standard input and the school's own in a file, and writes the list of the
// rows that are used on standard output; its arguments are the count of positions, the root and the name of the file. A
// refused list writes nothing there and one line on standard error: the number of the refusal, which list it is, 1 the
// school's and 2 the shipped one, and the faulty line. A wrong word, or a read or a write that fails, is named there
// too. The merged list is proved in `price_merge`; this program only reads and writes.
#![tactic(auto)]

use arguments::{argument_count, number_at};
use card_input::{STDERR, STDOUT, read_from, read_input};
use instance::Vertex;
use price_list::{MAX_LIST, Refused};
use price_merge::{MergeRefused, merge_lists};
use std::fs::File;
use std::rt::Env;
use std::str::from_utf8;

// One byte more than the longest list, which says that there is more.
const MAX_INPUT: usize = MAX_LIST + 1;

fn say(text: &[u8]) {
    io::write_all(STDERR, text);
}

fn say_refused(refused: Refused, list: u64) {
    say(b"refused ");
    io::print_decimal(STDERR, u32::from(refused.refusal) as u64);
    if let Some(line) = refused.line {
        say(b" list ");
        io::print_decimal(STDERR, list);
        say(b" line ");
        io::print_decimal(STDERR, line as u64);
    }
    say(b"\n");
}

fn say_refusal(refused: MergeRefused) {
    match refused {
        MergeRefused::School(own) => say_refused(own, 1),
        MergeRefused::Shipped(other) => say_refused(other, 2),
        MergeRefused::Merged(refusal) => say_refused(Refused::from(refusal), 0),
    }
}

// The file that an argument names, where it can be opened; a name that is no UTF-8 cannot. The name is let go here,
// before the lists take its place on the stack.
fn open_at(rt: &HostRuntime, i: usize) -> Option<File> {
    let mut path = io::buffer();
    let length = rt.arg(i, &mut path).ok()?;
    let name = from_utf8(&path[..length]).ok()?;
    File::open(rt, name).ok()
}

// The list of the rows that are used.
fn print_merged(school: &[u8], shipped: &[u8], n: u32, root: u32) {
    let mut list = [0u8; MAX_LIST];
    match merge_lists(school, shipped, n, Vertex(root), &mut list) {
        Ok(length) => {
            if !io::write_all(STDOUT, &list[..length]) {
                say(b"print_merged: cannot write standard output\n");
            }
        }
        Err(refused) => say_refusal(refused),
    }
}

fn read_both(rt: &HostRuntime, mut file: File, n: u32, root: u32) {
    let mut school = [0u8; MAX_INPUT];
    let mut shipped = [0u8; MAX_INPUT];
    let own = read_from(&mut file, &mut school);
    let other = read_input(rt, &mut shipped);
    let (Ok(first), Ok(second)) = (own, other) else {
        say(b"print_merged: cannot read a list\n");
        return;
    };
    if MAX_LIST < first || MAX_LIST < second {
        say(b"print_merged: a list has more than 13,454 bytes\n");
        return;
    }
    print_merged(&school[..first], &shipped[..second], n, root);
}

fn main(rt: HostRuntime) {
    if argument_count(&rt) != 4 {
        say(b"print_merged: usage: print_merged POSITIONS ROOT OWN-LIST < list > merged-list\n");
        return;
    }
    let (Some(n), Some(root)) = (number_at(&rt, 1), number_at(&rt, 2)) else {
        say(b"print_merged: POSITIONS and ROOT are numbers of at most 64 digits\n");
        return;
    };
    let Some(file) = open_at(&rt, 3) else {
        say(b"print_merged: the school's own list cannot be opened\n");
        return;
    };
    read_both(&rt, file, n, root);
}
