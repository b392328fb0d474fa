// What an element says in a child: a text, a yes, a whole number, a date, a number, a duration. What is right is said in the
// crate definition, specs/Field.antt; here the child's name is given by its bytes.
#![tactic(auto)]

mod child;
mod value;

pub use child::{
    date_at, date_in, fraction_in, given, int_in, minutes_in, number_at, number_in, other_than,
    own_uid, text_in, text_is, unsigned_in, yes_in,
};
