//! The keys of tables.
use arrayvec::ArrayVec;
use gaz_num::Table;
use gaz_tables::LinkKey;

/// A key of the lines of a table. Its order is that of the definitions.
pub(crate) trait TableKey: Ord + Clone + Drop {
    ghost use Rattle.std.specs.Prelude.{◌≡◌, ℕ, List};
    ghost use Rattle.gaz_num.specs.declared.words.Table.{Table};
    ghost use Rattle.gaz_plain.specs.Gazetteer.{key_cmp};

    ghost TABLE: { Table };

    /// The table whose lines have such keys.
    const TABLE: Table;

    ghost numbers: { Self → List ℕ };

    ghost compares: { (a b : Self) → Self.cmp a b ≡ key_cmp (numbers a) (numbers b) };

    ghost copies: { (a b : Self) → Self.is_clone a b → b ≡ a };
}

/// The id of a row.
#[derive(Clone, Copy, Debug, PartialEq, Eq, PartialOrd, Ord)]
pub(crate) struct RowId(pub u32);

impl TableKey for RowId {
    ghost use Rattle.std.specs.Prelude.{[], ◌∷◌};
    ghost use Rattle.gaz_num.specs.declared.words.Table.TheVariants.{Rows};
    ghost use Rattle.gaz_plain.specs.Keys.{compares_alone};

    ghost TABLE = { Rows };

    const TABLE: Table = Table::Rows;

    ghost numbers = { λ id. id.0 ∷ [] };

    ghost compares = { λ a b. compares_alone a.0 b.0 };

    ghost copies = { λ a b is. is };
}

/// The id of an alternate name.
#[derive(Clone, Copy, Debug, PartialEq, Eq, PartialOrd, Ord)]
pub(crate) struct AltId(pub u32);

impl TableKey for AltId {
    ghost use Rattle.std.specs.Prelude.{[], ◌∷◌};
    ghost use Rattle.gaz_num.specs.declared.words.Table.TheVariants.{Alternates};
    ghost use Rattle.gaz_plain.specs.Keys.{compares_alone};

    ghost TABLE = { Alternates };

    const TABLE: Table = Table::Alternates;

    ghost numbers = { λ id. id.0 ∷ [] };

    ghost compares = { λ a b. compares_alone a.0 b.0 };

    ghost copies = { λ a b is. is };
}

impl TableKey for LinkKey {
    ghost use Rattle.gaz_num.specs.declared.words.Table.TheVariants.{Links};
    ghost use Rattle.gaz_tables.specs.Keys.{key_numbers};
    ghost use Rattle.gaz_plain.specs.Keys.{compares_links};

    ghost TABLE = { Links };

    const TABLE: Table = Table::Links;

    ghost numbers = { λ key. key_numbers key };

    ghost compares = { λ a b. compares_links a b };

    ghost copies = { λ a b is. is };
}

/// The code of a country.
#[derive(Clone, Debug, PartialEq, Eq, PartialOrd, Ord, Drop)]
pub(crate) struct CountryCode(ArrayVec<u8, 4>);

impl CountryCode {
    ghost use Rattle.std.specs.Prelude.{◌≡◌, ◌<◌, ◌≤◌, length, MatchOption};

    /// None of a text that is longer than any code.
    pub fn of(text: &[u8]) -> Option<CountryCode>
        ensures { MatchOption result (4 < length text.now) (λ code. code.0.items ≡ text.now) }
    {
        match ArrayVec::try_from(text) {
            Ok(code) => Some(CountryCode(code)),
            Err(_) => None,
        }
    }

    /// The code of a text that is no longer than one.
    pub fn within(text: &[u8]) -> CountryCode
        requires { length text.now ≤ 4 }
        ensures { result.0.items ≡ text.now }
    {
        CountryCode::of(text).unwrap()
    }
}

impl TableKey for CountryCode {
    ghost use Rattle.std.specs.Prelude.{refl};
    ghost use Rattle.gaz_num.specs.declared.words.Table.TheVariants.{Countries};
    ghost use Rattle.gaz_plain.specs.Keys.{same_country};

    ghost TABLE = { Countries };

    const TABLE: Table = Table::Countries;

    ghost numbers = { λ code. code.0.items };

    ghost compares = { λ a b. refl };

    ghost copies = { λ a b is. same_country a b is };
}

/// The code of an admin division.
#[derive(Clone, Debug, PartialEq, Eq, PartialOrd, Ord, Drop)]
pub(crate) struct AdminCode(ArrayVec<u8, 128>);

impl AdminCode {
    ghost use Rattle.std.specs.Prelude.{◌≡◌, ◌<◌, ◌≤◌, length, MatchOption};

    /// None of a text that is longer than any code.
    pub fn of(text: &[u8]) -> Option<AdminCode>
        ensures { MatchOption result (128 < length text.now) (λ code. code.0.items ≡ text.now) }
    {
        match ArrayVec::try_from(text) {
            Ok(code) => Some(AdminCode(code)),
            Err(_) => None,
        }
    }

    /// The code of a text that is no longer than one.
    pub fn within(text: &[u8]) -> AdminCode
        requires { length text.now ≤ 128 }
        ensures { result.0.items ≡ text.now }
    {
        AdminCode::of(text).unwrap()
    }
}

impl TableKey for AdminCode {
    ghost use Rattle.std.specs.Prelude.{refl};
    ghost use Rattle.gaz_num.specs.declared.words.Table.TheVariants.{Codes};
    ghost use Rattle.gaz_plain.specs.Keys.{same_admin};

    ghost TABLE = { Codes };

    const TABLE: Table = Table::Codes;

    ghost numbers = { λ code. code.0.items };

    ghost compares = { λ a b. refl };

    ghost copies = { λ a b is. same_admin a b is };
}
