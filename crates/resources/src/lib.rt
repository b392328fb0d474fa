// What a resource and an assignment say, each value by itself: an element in, a value out.
#![tactic(auto)]

mod assignment;
mod resource;

pub use assignment::{Amounts, cost, rate, work};
pub use resource::{
    Accrual, ResourceKind, accrual_of, is_cost, is_resource, max_units, price, resource_kind,
};
