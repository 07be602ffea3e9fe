//! The words that every crate of the checker shares: lists and names, methods and sites, bounds, values, inputs, and
//! the text forms of entries and sites.
#![tactic(auto)]

mod cut;
mod described;
mod escaped;
mod fault;
mod form;
mod input;
mod laws;
mod method;
mod name;
mod order;
mod reading;
mod site;
mod spelled;
mod spelling;
mod types;
mod value;

pub use described::{descriptor_text, field_type_text};
pub use fault::TextFault;
pub use form::{is_any_method_name, is_class_name, is_field_descriptor, is_method_descriptor};
pub use input::{Input, Part, Tree};
pub use jv_list::{List, Mem, TryCopy};
pub use laws::{
    forms_decided, goal_order, one_descriptor, one_entry, one_field_type, one_form, one_site,
};
pub use method::{Bounds, FieldId, Goal, Kind, MethodId, Site};
pub use name::Name;
pub use order::compare_goals;
pub use reading::read_entry;
pub use site::read_site;
pub use spelling::{entry_text, kind_text, push_name_text, site_text};
pub use types::{read_descriptor, read_field_type};
pub use value::{Desc, Ty, Value};
