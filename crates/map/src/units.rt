// The unit in which a quantity is sent, or its values: by its kind, and where the kind has several, by which it is.
// Goes by the numbers of the table.
use directory::quantity::*;

pub fn of(quantity: u16) -> &'static str {
    let which = quantity % 64;
    match quantity - which {
        VOLTAGE => "mV",
        CURRENT => "mA",
        POWER => power(which),
        SIGNED_POWER => signed_power(which),
        ENERGY_COUNT => "steps",
        LOW => by_sort(which, "Wh", "varh"),
        HIGH => by_sort(which, "10^6 Wh", "10^6 varh"),
        WRAP => "10^8 steps",
        FACTOR => factor(which),
        SIGN => "0, or 1 if negative",
        SECTOR => "0 to 2",
        FREQUENCY => "0.1 Hz",
        KTA => "whole",
        KTV => "tenths",
        SEQUENCE => "1 or 2",
        _ => plain(which),
    }
}

// P, Q and S go by the ratios, but for the S that is whole at any; average and peak go as P does.
fn power(which: u16) -> &'static str {
    match which {
        Q | Q1 | Q2 | Q3 => "0.01 var or 1 var",
        S => "0.01 VA or 1 VA",
        WHOLE_S => "1 VA",
        _ => "0.01 W or 1 W",
    }
}

fn signed_power(which: u16) -> &'static str {
    match which {
        Q | Q1 | Q2 | Q3 => "var",
        _ => "W",
    }
}

// An energy is active or reactive.
fn by_sort(which: u16, active: &'static str, reactive: &'static str) -> &'static str {
    match which {
        POS_EA | NEG_EA => active,
        _ => reactive,
    }
}

fn factor(which: u16) -> &'static str {
    match which {
        HUNDREDTHS => "hundredths, signed",
        _ => "thousandths, signed",
    }
}

// A plain word has no unit, but for the minutes.
fn plain(which: u16) -> &'static str {
    match which {
        MINUTES => "whole minutes",
        _ => "none",
    }
}
