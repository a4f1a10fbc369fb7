//! A name of a file, which is valid as long as it exists.
ghost use Rattle.std.specs.Prelude.{◌≡◌, ◌⊎◌, IfOk, IfErr, IfSome, Err, string_bytes};
ghost use Rattle.sis_name.specs.declared.fault.NameFault.TheVariants.{Memory};
ghost use Rattle.sis_name.specs.Name.{IsName, RefusesName, name_fault};
ghost use Rattle.sis_name.specs.Units.{is_store_name, text_units, name_text};
ghost use Rattle.sis_name.specs.StoreNames.{store_name, store_guid};

use crate::fault::{NameFault, first_fault};
use crate::store::{STORE_PREFIX, guid_of_units, units_of_guid};
use crate::units::units_of;
use std::alloc::{AllocError, Global};
use std::cmp::Ordering;
use std::marker::Model;

/// A file's name: 1 to 255 units of well-formed UTF-16, with no control character below 0x20 and
/// no quotation mark.
///
/// Names are ordered by their units, and not by their characters: a surrogate pair comes before
/// the characters from U+E000 to U+FFFF.
#[derive(Debug, Drop)]
pub struct Name {
    units: Vec<u16>,
}

impl Model for Name {
    ghost use Rattle.std.specs.Prelude.{ℕ, List};
    ghost use Rattle.sis_name.specs.Name.{IsName};

    ghost Value = { List ℕ };

    ghost view = { λ n. n.units.items };

    ghost invariant = { λ n. IsName n.units.items };
}

impl Name {
    /// The name with these units.
    pub fn from_units(alloc: Global, units: &[u16]) -> Result<Name, NameFault>
        ensures ok { IfOk result (λ name. (name ≡ units.now) × IsName units.now) }
        ensures refused { IfSome (name_fault units.now) (λ fault. result ≡ Err fault) }
        ensures cause { IfErr result (RefusesName units.now) }
    {
        if let Some(fault) = first_fault(units) {
            return Err(fault);
        }
        Ok(Name {
            units: units.to_vec(alloc)?,
        })
    }

    /// The name with a text's units.
    ///
    /// `Memory` may come before any other fault, since the units are gathered first.
    pub fn from_text(alloc: Global, text: &str) -> Result<Name, NameFault>
        ensures ok { IfOk result
            (λ name. (name ≡ text_units text.now) × IsName (text_units text.now)) }
        ensures refused { IfSome (name_fault (text_units text.now))
            (λ fault. (result ≡ Err Memory) ⊎ (result ≡ Err fault)) }
        ensures cause { IfErr result (RefusesName (text_units text.now)) }
    {
        let units = units_of(alloc, text)?;
        match first_fault(&units) {
            Some(fault) => Err(fault),
            None => Ok(Name { units }),
        }
    }

    /// The name of the store file with this GUID.
    pub fn of_store(alloc: Global, guid: [u8; 16]) -> Result<Name, AllocError>
        ensures { IfOk result (λ name. name ≡ store_name guid) }
    {
        Ok(Name {
            units: units_of_guid(alloc, guid)?,
        })
    }

    /// The units, which are those of a name.
    pub fn units(&self) -> &[u16]
        ensures value { result.now ≡ self.now }
        ensures name { IsName self.now }
    {
        &self.units
    }

    /// The text, whose units are the name's.
    pub fn to_text(&self, alloc: Global) -> Result<String, AllocError>
        ensures text { IfOk result (λ text. string_bytes text ≡ name_text self.now) }
        ensures units { IfOk result (λ text. text_units (string_bytes text) ≡ self.now) }
    {
        Ok(String::from_utf16(alloc, &self.units)?.unwrap())
    }

    /// The same name once more.
    pub fn copy(&self, alloc: Global) -> Result<Name, AllocError>
        ensures ok { IfOk result (λ copy. copy ≡ self.now) }
        ensures name { IsName self.now }
    {
        Ok(Name {
            units: self.units.as_slice().to_vec(alloc)?,
        })
    }

    /// Whether it begins as the names of store files do, which no user may take.
    pub fn is_store(&self) -> bool
        ensures value { result ≡ is_store_name self.now }
        ensures name { IsName self.now }
    {
        self.units.starts_with(&STORE_PREFIX)
    }

    /// The GUID of the store file with this name, if the name has the one spelling of a GUID.
    ///
    /// Takes no memory.
    pub fn store_guid(&self) -> Option<[u8; 16]>
        ensures { result ≡ store_guid self.now }
    {
        guid_of_units(&self.units)
    }
}

impl PartialEq for Name {
    ghost use Rattle.std.specs.Prelude.{◌==◌};
    ghost use Rattle.std.specs.Cmp.Lexicographic.{pointwise, lists_equiv};
    ghost use Rattle.std.specs.Cmp.{nat_eq_equiv, partial_equiv_from_equiv};

    ghost eq = { pointwise ◌==◌ };

    ghost laws = { partial_equiv_from_equiv (lists_equiv nat_eq_equiv) };

    fn eq(&self, other: &Name) -> bool {
        self.units.as_slice() == other.units.as_slice()
    }
}

impl Eq for Name {
    ghost use Rattle.std.specs.Cmp.Lexicographic.{lists_equiv};
    ghost use Rattle.std.specs.Cmp.{nat_eq_equiv};

    ghost laws = { lists_equiv nat_eq_equiv };
}

impl PartialOrd for Name {
    ghost use Rattle.std.specs.Cmp.Lexicographic.{slice_cmp, lists_ties};
    ghost use Rattle.std.specs.Cmp.{partial_order_from_own_ties, partial_order_from_total, unsigned_ties};
    ghost use Rattle.std.specs.Ordering.{nat_cmp, as_partial_cmp};
    ghost use Rattle.sis_name.specs.Units.{name_cmp, name_total};

    ghost partial_cmp = { as_partial_cmp name_cmp };

    ghost laws = { partial_order_from_own_ties (partial_order_from_total name_total)
        (lists_ties nat_cmp unsigned_ties) };

    fn partial_cmp(&self, other: &Name) -> Option<Ordering> {
        Some(self.cmp(other))
    }
}

impl Ord for Name {
    ghost use Rattle.std.specs.Prelude.{refl};
    ghost use Rattle.std.specs.Cmp.Lexicographic.{lists_ties};
    ghost use Rattle.std.specs.Cmp.{unsigned_ties};
    ghost use Rattle.std.specs.Ordering.{nat_cmp};
    ghost use Rattle.sis_name.specs.Units.{name_cmp, name_total};

    ghost cmp = { name_cmp };

    ghost total = { name_total };

    ghost matches_partial_cmp = { λ x y. refl };

    ghost matches_eq = { lists_ties nat_cmp unsigned_ties };

    fn cmp(&self, other: &Name) -> Ordering {
        self.units.as_slice().cmp(other.units.as_slice())
    }
}
