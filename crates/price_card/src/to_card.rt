// The card of a price list: the list is read into a table of weights, and the card is written of that table.
ghost use Rattle.std.specs.Prelude.{◌≡◌};
ghost use Rattle.instance.specs.RefusalNumbers.{answer_of};
ghost use Rattle.price_card.specs.ToCard.{card_count_refusal, making_told, MakesCard};

use card::write::write_instance;
use instance::Vertex;
use instance::limits::{CELLS, FREE, MAX_BUDGET, NO_ARC};
use instance::refusals::Refusal;
use price_list::Refused;
use price_list::read::read_table;
use price_list::room::check_count;

// What is wrong with the numbers that come with a list.
fn check_numbers(n: u32, root: u32, budget: u32) -> Result<(), Refusal>
    ensures { answer_of result ≡ card_count_refusal n root budget }
{
    check_count(n, root)?;
    if MAX_BUDGET < budget {
        return Err(Refusal::BadCardBudget);
    }
    Ok(())
}

// Writes the plain card with the list's prices and no mark, and gives its length; bytes behind it stay.
pub fn card_from_prices(
    text: &[u8],
    n: u32,
    root: Vertex,
    budget: u32,
    out: &mut [u8],
) -> Result<usize, Refused>
    ensures { MakesCard text.now n root.0 budget out.old out.new (making_told result) }
{
    check_numbers(n, root.0, budget)?;
    let mut weights = [NO_ARC; CELLS];
    read_table(text, n, root.0, &mut weights)?;
    let marks = [FREE; CELLS];
    Ok(write_instance(&weights, &marks, n, root.0, budget, out)?)
}
