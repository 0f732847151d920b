// Why a link is closed, open or sure, and what the sheet comes to without it: written from the request's words and from
// documents 01 and 02 alone, in the plainest way, with no crate of the product.
#![tactic(auto)]

pub mod due; // due.rt: what the two calls have to give
pub mod restricted; // restricted.rt: the remaining arcs with one arc alone into its head, or with one taken out
pub mod setter; // setter.rt: who set the mark of an arc
