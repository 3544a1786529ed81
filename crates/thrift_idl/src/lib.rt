//! Definitions of Thrift IDL: reading a text, telling what it defines, and printing it.
#![tactic(auto)]

pub use idl_parse::{
    DefFault, DefaultRef, Definition, FieldRef, FieldRefs, Need, TypeKind, TypeRef, parse,
    texts_have_one_answer,
};
pub use idl_print::{print, printed_text_means_the_definition};
