// The first two lines: the instance's numbers, as in a report, and how the listing ended.
ghost use Rattle.std.specs.Prelude.{◌++◌};
ghost use Rattle.text.specs.Buffer.{Room, Puts};
ghost use Rattle.text.specs.Lines.{codes, labelled, line};
ghost use Rattle.listing_text.specs.Heading.{ending_line, heading_lines};

use enumeration::Ended;
use report_text::put_header;
use text::lines::{put_labelled, put_line};

// The line's two numbers, the first behind a label that tells how the listing ended.
fn put_counts(label: &[u8], trees: u32, tries: u32, out: &mut [u8], at: usize) -> usize
    requires { Room (labelled label.now trees ++ line (codes " tries ") tries) out.old at }
    ensures { Puts (labelled label.now trees ++ line (codes " tries ") tries) out.old out.new at result }
{
    let next = put_labelled(label, trees, out, at);
    put_line(b" tries ", tries, out, next)
}

fn put_ending(ended: Ended, trees: u32, tries: u32, out: &mut [u8], at: usize) -> usize
    requires { Room (ending_line ended trees tries) out.old at }
    ensures { Puts (ending_line ended trees tries) out.old out.new at result }
{
    match ended {
        Ended::Complete => put_counts(b"complete trees ", trees, tries, out, at),
        Ended::AtLimit => put_counts(b"limit trees ", trees, tries, out, at),
        Ended::NoRoom => put_counts(b"room trees ", trees, tries, out, at),
    }
}

// n, root, budget: the instance's. ended, trees, tries: what the listing gave. The lines go into `out` from the place
// `at` on.
pub fn put_heading(
    n: u32,
    root: u32,
    budget: u32,
    ended: Ended,
    trees: u32,
    tries: u32,
    out: &mut [u8],
    at: usize,
) -> usize
    requires { Room (heading_lines n root budget ended trees tries) out.old at }
    ensures { Puts (heading_lines n root budget ended trees tries) out.old out.new at result }
{
    let next = put_header(n, root, budget, out, at);
    put_ending(ended, trees, tries, out, next)
}
