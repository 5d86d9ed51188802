//! The lists of stop words, by the codes of their languages.
pub mod da;
pub mod de;
pub mod du;
pub mod en;
pub mod es;
pub mod fi;
pub mod fr;
pub mod it;
pub mod ko;
pub mod no;
pub mod pt;
pub mod ro;
pub mod ru;
pub mod sv;
pub mod tr;
