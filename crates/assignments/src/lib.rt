// Resources, assignments and expenses, each section written one record after another. What is right is said in the crate definition,
// specs/Resource.antt.
#![tactic(auto)]

mod assignment;
mod expense;
mod resource;
mod section;

pub use assignment::put_assignments;
pub use expense::put_expenses;
pub use resource::put_resources;
pub use section::Tables;
