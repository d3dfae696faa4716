ghost use Rattle.refresh_place.specs.RefreshedAttacks.{RefreshedCoresAreRefreshed, AttacksOnRefreshedCores, LeftOutOfView};

use linear_view::{Column, core_view_size, narrow_views_keep_attacks};
use span_model::{
    all_refreshed_is_secure, attack_stays_with_fewer, none_refreshed_is_same,
    refreshed_is_left_out, refreshed_under_names, renaming_keeps_attacks,
};

/// The products of a refreshed core are refreshed products.
pub fn refreshed_cores_are_refreshed()
    ensures { RefreshedCoresAreRefreshed }
{}

/// The attacks on refreshed cores: none with all products refreshed, and no fewer with fewer of them.
pub fn attacks_on_refreshed_cores()
    ensures { AttacksOnRefreshedCores }
{
    refreshed_cores_are_refreshed();
    refreshed_under_names::<Column, Column>();
    all_refreshed_is_secure::<Column>();
    attack_stays_with_fewer::<Column>();
    none_refreshed_is_same::<Column>();
    core_view_size();
}

/// The attacks on a refreshed core are those on the core's view, and on a narrow view of it, without the products of the set.
pub fn left_out_of_view()
    ensures { LeftOutOfView }
{
    refreshed_cores_are_refreshed();
    refreshed_under_names::<Column, Column>();
    refreshed_is_left_out::<Column>();
    renaming_keeps_attacks::<Column, u32>();
    renaming_keeps_attacks::<u32, Column>();
    narrow_views_keep_attacks();
}
