// The marks of a record of several arcs: on the card two bits for each head of the set, upwards; on the board two bits
// for each of the 32 heads, head h at bits 2h and 2h + 1.
ghost use Rattle.std.specs.Prelude.{◌≡◌, cond, ◌+◌, ◌*◌, ◌≤◌, ◌<◌, length};
ghost use Rattle.base.specs.Digits.{from_digits};
ghost use Rattle.bits.specs.Bits.{bits_in, field};
ghost use Rattle.bits.specs.Writer.{Ready, Put};
ghost use Rattle.instance.specs.Limits.{max_vertices, free};
ghost use Rattle.instance.specs.Cuts.{inside};
ghost use Rattle.card_format.specs.Widths.{mark_width};
ghost use Rattle.heads.specs.RecordMarks.{record_marks};
ghost use Rattle.history_format.specs.RecordBits.{mark_offset, mark_bits};
ghost use Rattle.history_card.specs.Marks.{last_bit, one_mark};

use bits::BitWriter;
use card::widths::MARK_WIDTH;
use checks::sets::is_inside;
use instance::limits::MAX_VERTICES;

// How many bits the marks of these heads take.
pub fn marks_width(heads: u32) -> usize
    ensures { result ≡ mark_offset heads max_vertices }
{
    let mut width: usize = 0;
    for head in 0..MAX_VERTICES {
        if is_inside(heads, head) {
            width += MARK_WIDTH;
        }
    }
    width
}

// The marks of these heads, from the bits at `at` on; 0 at any other head.
pub fn read_marks(card: &[u8], at: usize, heads: u32) -> u64
    requires { (at + mark_offset heads max_vertices ≤ 8 * length card.now) × (at ≤ last_bit) }
    ensures { result ≡ from_digits 4 max_vertices (λ h. cond (inside heads h) (field (at + mark_offset heads h) mark_width (bits_in card.now)) free) }
{
    let mut value: u64 = 0;
    let mut place = at;
    for head in 0..MAX_VERTICES {
        if is_inside(heads, head) {
            let mark = bits::read_bits(card, place, MARK_WIDTH);
            value += (mark as u64) << (2 * head);
            place += MARK_WIDTH;
        }
    }
    value
}

// The mark of a head, if it is in the set; the next bit of `out` goes where `w` says.
fn put_mark(heads: u32, marks: u64, head: u32, w: BitWriter, out: &mut [u8]) -> BitWriter
    requires { (head < max_vertices) × Ready (length (one_mark heads marks head)) w out.old }
    ensures { Put (one_mark heads marks head) w out.old out.new result }
{
    if is_inside(heads, head) {
        return w.put_bits(((marks >> (2 * head)) % 4) as u32, MARK_WIDTH, out);
    }
    w
}

// The marks of these heads, upwards.
pub fn put_marks(heads: u32, marks: u64, start: BitWriter, out: &mut [u8]) -> BitWriter
    requires { Ready (mark_offset heads max_vertices) start out.old }
    ensures { Put (mark_bits max_vertices heads (record_marks heads marks)) start out.old out.new result }
{
    let mut w = start;
    for head in 0..MAX_VERTICES {
        w = put_mark(heads, marks, head, w, out);
    }
    w
}
