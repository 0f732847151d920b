// The count of vertices and the root, and whether there are enough words for the prices.
ghost use Rattle.std.specs.Prelude.{◌≡◌};
ghost use Rattle.instance.specs.RefusalNumbers.{answer_of};
ghost use Rattle.price_format.specs.Reading.{count_refusal, room_refusal};

use instance::limits::MAX_VERTICES;
use instance::refusals::Refusal;

pub fn check_count(n: u32, root: u32) -> Result<(), Refusal>
    ensures { answer_of result ≡ count_refusal n root }
{
    if n == 0 {
        return Err(Refusal::BadCount);
    }
    if MAX_VERTICES < n {
        return Err(Refusal::BadCount);
    }
    if n <= root {
        return Err(Refusal::BadRoot);
    }
    Ok(())
}

pub fn check_room(n: u32, root: u32, words: usize) -> Result<(), Refusal>
    ensures { answer_of result ≡ room_refusal n root words }
{
    check_count(n, root)?;
    if words < (n * n) as usize {
        return Err(Refusal::BufferShort);
    }
    Ok(())
}
