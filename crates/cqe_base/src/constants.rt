//! The constants of all domains by their names.

ghost use Rattle.std.specs.Prelude.{◌≡◌, ◌≤◌, ◌+◌, List, ℕ, Some, None, true, IfOk, OnOk, length};
ghost use Rattle.std.specs.Prelude.{nat_le, position, option_map, bytes_eq, string_bytes};
ghost use Rattle.std.specs.Prelude.{if◌then◌else◌};
ghost use Rattle.std.specs.List.{list_all};
ghost use Rattle.std.specs.Option.{option_or};
ghost use Rattle.std.specs.HashMap.{get_by_text};
ghost use Rattle.cqe_base.specs.Memory.{AreByName};

use crate::schema::Domain;
use crate::sentence::Constant;
use std::alloc::{AllocError, Global};
use std::collections::HashMap;

/// Puts a constant under a name, unless the name has one.
fn add_constant(
    alloc: Global,
    by_name: &mut HashMap<String, Constant>,
    name: &str,
    constant: Constant,
) -> Result<(), AllocError>
    ensures { OnOk result ((text : List ℕ) → get_by_text by_name.new text ≡
        option_or (get_by_text by_name.old text)
        (if bytes_eq name.now text then Some constant else None)) }
{
    if !by_name.contains_key(name) {
        by_name.insert(String::from_str(alloc, name)?, constant)?;
    }
    Ok(())
}

/// Puts the constants of a domain under their names, each unless its name has one.
fn add_constants(
    alloc: Global,
    by_name: &mut HashMap<String, Constant>,
    domain: u32,
    names: &[String],
) -> Result<(), AllocError>
    requires { length names.now ≤ 1024 }
    ensures { OnOk result ((text : List ℕ) → get_by_text by_name.new text ≡
        option_or (get_by_text by_name.old text)
        (option_map (λ i. record { domain = domain; index = i })
        (position (λ n. bytes_eq (string_bytes n) text) names.now))) }
{
    for (place, name) in names.iter().enumerate() {
        let constant = Constant {
            domain,
            index: place as u32,
        };
        add_constant(alloc, by_name, name.as_str(), constant)?;
    }
    Ok(())
}

/// Each constant under its name: the first one, where a name stands twice.
pub fn constants_by_name(
    alloc: Global,
    domains: &[Domain],
) -> Result<HashMap<String, Constant>, AllocError>
    requires few { length domains.now ≤ 64 }
    requires small { list_all (λ d. nat_le (length d.constants.items) 1024) domains.now ≡ true }
    ensures { IfOk result (AreByName domains.now) }
{
    let mut by_name = HashMap::new(alloc);
    for (number, domain) in domains.iter().enumerate() {
        add_constants(
            alloc,
            &mut by_name,
            number as u32,
            domain.constants.as_slice(),
        )?;
    }
    Ok(by_name)
}
