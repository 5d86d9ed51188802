//! The tables, by the codes of their languages.
pub mod da;
pub mod de;
pub mod du;
pub mod es;
pub mod fi;
pub mod fr;
pub mod hu;
pub mod it;
pub mod no;
pub mod pt;
pub mod ro;
pub mod ru;
pub mod sv;
pub mod tr;
