// Between price lists and cards: the card of a list with the count of positions, the root and the budget, and the list
// of a card. Neither call requires anything of its caller.
#![tactic(auto)]

pub mod to_card; // to_card.rt: the card of a price list
pub mod from_card; // from_card.rt: the price list of a card

pub use card::MAX_CARD;
pub use from_card::{CardPrices, CardWeights, list_weights, prices_from_card, weights_on_card};
pub use price_list::MAX_LIST;
pub use to_card::card_from_prices;
