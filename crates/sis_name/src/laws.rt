//! What follows for every name of a store file. These functions do nothing: their clauses are what
//! they are for.
ghost use Rattle.std.specs.Prelude.{◌≡◌, ℕ, List, Some, true, length};
ghost use Rattle.sis_name.specs.Name.{IsName};
ghost use Rattle.sis_name.specs.Units.{is_store_name};
ghost use Rattle.sis_name.specs.StoreNames.{IsGuid, store_name, store_guid};

/// A store file's name is a name, has 57 units, and begins as the names of store files do.
pub fn store_name_is_a_name()
    ensures name { (guid : List ℕ) → IsName (store_name guid) }
    ensures store { (guid : List ℕ) → is_store_name (store_name guid) ≡ true }
    ensures len { (guid : List ℕ) → length (store_name guid) ≡ 57 }
{}

/// The name of a GUID's store file has this GUID.
#[tactic(auto, using(crate::proofs::StoreLemmas::name_has_guid))]
pub fn store_name_has_its_guid()
    ensures { (guid : List ℕ) → IsGuid guid → store_guid (store_name guid) ≡ Some guid }
{}

/// No other units have it: they are the name of its store file.
pub fn only_store_names_have_a_guid()
    ensures { (units guid : List ℕ) → store_guid units ≡ Some guid
        → IsGuid guid × (units ≡ store_name guid) }
{}

/// No two GUIDs have one name.
pub fn each_guid_has_its_own_name()
    ensures { (one two : List ℕ) → IsGuid one → IsGuid two → store_name one ≡ store_name two
        → one ≡ two }
{}
