use settlement::{Region, UnknownRegion};

#[test]
fn a_region_is_east_or_west(rt: HostRuntime) {
    assert_eq!(rt; Region::try_from(0u8), Ok(Region::East));
    assert_eq!(rt; Region::try_from(1u8), Ok(Region::West));
    assert_eq!(rt; Region::try_from(2u8), Err(UnknownRegion(2)));
    assert_eq!(rt; Region::try_from(255u8), Err(UnknownRegion(255)));
}
