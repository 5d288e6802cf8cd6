// Laws of the addresses that mappings name. Each function only states its law.
ghost use Rattle.std.specs.Prelude.{◌≡◌, ◌↔◌, List, [], All, Contains, Option, None, IfSome};
ghost use Rattle.ip_headers.specs.declared.addr.Addr.{Addr};
ghost use Rattle.mapping_records.specs.declared.eid.Eid.{Eid};
ghost use Rattle.map_cache.specs.Lists.{IsAscending};
ghost use Rattle.map_cache.specs.Named.{least_named, named_above, IsNoLess, IsNoLessAtOne};
ghost use Rattle.map_cache.specs.declared.mapping.Mapping.{Mapping};

/// Law: the pair that `least_named` gives is one of those named, and none of them has a lesser
/// address. It gives None exactly where no address is named.
pub fn no_lesser_address_is_named()
    ensures one { (named : List (Addr × Eid)) → IfSome (least_named named) (Contains named) }
    ensures least { (named : List (Addr × Eid))
        → IfSome (least_named named) (λ best. All (IsNoLess best) named) }
    ensures none { (named : List (Addr × Eid)) → (least_named named ≡ None) ↔ (named ≡ []) }
{}

/// Law: of mappings in order of EID, none that names the address of `least_named` has a lesser EID
/// than the one that it gives.
pub fn no_lesser_eid_names_it()
    ensures { (after : Option Addr) (mappings : List Mapping) → IsAscending mappings
        → IfSome (least_named (named_above after mappings))
        (λ best. All (IsNoLessAtOne best) (named_above after mappings)) }
{}
