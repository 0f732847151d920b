// What a look has to show under a budget, by the words of documents 01 and 02, from the listing of all trees.
use crate::problem::{ABSENT, Problem};
use crate::trees::Listing;
use crate::{access, trees};

// The kinds of an outcome: numbers, no enum, as they are counted by number and written so in the scripts, and the looks
// of the tests have one kind more, a refusal.
pub const PLAN: u32 = 0;

pub const OVER: u32 = 1;

pub const NONE: u32 = 2;

// "Its total is the sum of its prices. It is within budget if its total is at most the budget."
pub fn kind(list: Listing, budget: u32) -> u32 {
    if list.cheapest == ABSENT {
        return NONE;
    }
    if budget < list.cheapest {
        return OVER;
    }
    PLAN
}

// "when over budget, the states are to be those for a budget equal to the cheapest total": what a total may be at most
// for the states. Without a tree the budget stays. (02, A2)
pub fn limit(cheapest: u32, budget: u32) -> u32 {
    if cheapest == ABSENT {
        return budget;
    }
    if budget < cheapest {
        return cheapest;
    }
    budget
}

// "1 closed, no tree uses it; 2 open, some use it and some don't; 3 sure, there is at least one tree and all use it":
// of an arc, by the cheapest total of a tree that uses it, and of one that does not.
pub fn arc_state(limit: u32, using: u32, avoiding: u32) -> u32 {
    if limit < using {
        return 1;
    }
    if limit < avoiding {
        return 3;
    }
    2
}

// "0 not a link", or the state of the arc.
pub fn state(list: Listing, p: Problem, tail: u32, head: u32) -> u32 {
    if !p.is_arc(tail, head) {
        return 0;
    }
    let using = trees::place(tail, head, true);
    let avoiding = trees::place(tail, head, false);
    arc_state(
        limit(list.cheapest, p.budget),
        list.totals[using],
        list.totals[avoiding],
    )
}

// "The feeder list is now, among all cheapest feed trees, the first when compared position by position" (02, A10),
// whether within budget or over it; without a tree 255 everywhere.
pub fn is_first(list: Listing, parents: &[u8], n: u32) -> bool {
    access::equal_fronts(parents, &list.first, n)
}
