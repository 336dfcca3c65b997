// What a quantity is called: by its kind, and where the kind has several, by which it is.
// Goes by the numbers of the table.
use directory::quantity::*;
use std::fmt::{self, Display};

#[derive(Clone, Copy)]
pub struct Name(pub u16);

impl Display for Name {
    fn fmt<W: fmt::Write>(&self, f: &mut fmt::Formatter<W>) -> fmt::Result {
        if let Some(address) = setup(self.0) {
            return write!(f, "setup word 0x{address:04x}");
        }
        let which = self.0 % 64;
        let kind = self.0 - which;
        write!(f, "{}{}", of_kind(kind), of_which(kind, which))
    }
}

// The address of a setup word.
fn setup(quantity: u16) -> Option<u32> {
    if quantity < SETUP_2000 {
        None
    } else if quantity < SETUP_2200 {
        Some(0x2000 + u32::from(quantity - SETUP_2000))
    } else {
        Some(0x2200 + u32::from(quantity - SETUP_2200))
    }
}

// A plain word has no name but which it is.
fn of_kind(kind: u16) -> &'static str {
    match kind {
        VOLTAGE => "voltage",
        CURRENT => "current",
        POWER => "power",
        SIGNED_POWER => "signed power",
        ENERGY_COUNT => "register of",
        LOW => "Low of",
        HIGH => "High of",
        WRAP => "wrap of",
        FACTOR => "power factor",
        SIGN => "sign of",
        SECTOR => "sector",
        FREQUENCY => "frequency",
        KTA => "KTA",
        KTV => "KTV",
        SEQUENCE => "phase sequence",
        _ => "",
    }
}

// Empty where the kind has one alone.
fn of_which(kind: u16, which: u16) -> &'static str {
    match kind {
        VOLTAGE => voltage(which),
        CURRENT => current(which),
        POWER | SIGNED_POWER | SIGN => power(which),
        ENERGY_COUNT | LOW | HIGH | WRAP => energy(which),
        PLAIN => plain(which),
        _ => "",
    }
}

fn voltage(which: u16) -> &'static str {
    match which {
        L1 => " L1",
        L2 => " L2",
        L3 => " L3",
        L12 => " L1-L2",
        L23 => " L2-L3",
        L31 => " L3-L1",
        _ => "",
    }
}

fn current(which: u16) -> &'static str {
    match which {
        L1 => " L1",
        L2 => " L2",
        L3 => " L3",
        N => " N",
        _ => "",
    }
}

fn power(which: u16) -> &'static str {
    match which {
        P => " P",
        Q => " Q",
        P1 => " P1",
        P2 => " P2",
        P3 => " P3",
        Q1 => " Q1",
        Q2 => " Q2",
        Q3 => " Q3",
        S | WHOLE_S => " S",
        AVERAGE => " average of positive P, last full window",
        PEAK => " peak of the average",
        _ => "",
    }
}

fn energy(which: u16) -> &'static str {
    match which {
        POS_EA => " +Ea",
        NEG_EA => " -Ea",
        POS_ER => " +Er",
        NEG_ER => " -Er",
        _ => "",
    }
}

fn plain(which: u16) -> &'static str {
    match which {
        ZEROS => "zero",
        BYTE_IDENTIFIER => "identifier 0x11",
        WORD_IDENTIFIER => "identifier 0x1114",
        MINUTES => "minutes of the open window",
        _ => "",
    }
}
