//! A device's turn on the links of a world.
ghost use Rattle.std.specs.Prelude.{◌≡◌, IfOk, OnOk, length, map};
ghost use Rattle.std.specs.List.{list_any};
ghost use Rattle.sync_world.specs.Doing.{hears_at_end, hears_on_link, hears_on_links};
ghost use Rattle.sync_world.specs.Shown.{link_arrived};
ghost use Rattle.sync_world.specs.Staging.{PlansAll, PlansEnd, PlansLink, SameFiles};
ghost use Rattle.sync_world.specs.Turning.{is_moving, look_at, look_link, shut_at};
ghost use Rattle.world_links.specs.Links.{left_by, side_of};

use std::alloc::AllocError;
use world_devices::Device;
use world_links::{End, Link, Side};

/// Plans what each link of a device is to answer in its next turn.
pub(crate) fn plan_all(
    device: &mut Device,
    number: u8,
    links: &mut [Link],
) -> Result<(), AllocError>
    ensures files { SameFiles device.old device.new }
    ensures number { length links.new ≡ length links.old }
    ensures planned { OnOk result (PlansAll number device.old device.new links.old links.new) }
    ensures exact { OnOk result
        ((device.new, links.new) ≡ hears_on_links number device.old links.old) }
{
    'links: for i in 0..links.len() {
        plan_on(device, number, &mut links[i])?;
    }
    Ok(())
}

// Plans what a link is to answer at the end of this device.
fn plan_on(device: &mut Device, number: u8, link: &mut Link) -> Result<(), AllocError>
    ensures files { SameFiles device.old device.new }
    ensures planned { OnOk result (PlansLink number device.old device.new link.old link.new) }
    ensures exact { OnOk result
        ((device.new, link.new) ≡ hears_on_link device.old link.old (side_of number link.old)) }
{
    match link.side_of(number) {
        Some(Side::Near) => plan(device, &mut link.near, link.is_cut),
        Some(Side::Far) => plan(device, &mut link.far, link.is_cut),
        None => Ok(()),
    }
}

// Plans what a link is to answer at this end, where it is still asked there.
fn plan(device: &mut Device, end: &mut End, is_cut: bool) -> Result<(), AllocError>
    ensures files { SameFiles device.old device.new }
    ensures planned { OnOk result (PlansEnd device.old device.new end.old end.new) }
    ensures exact { OnOk result
        ((device.new, end.new) ≡ hears_at_end is_cut device.old end.old end.old.at) }
{
    match end.at() {
        Some(at) if device.is_asked(at) => {
            let answer = end.answer(is_cut)?;
            device.plan(at, answer)?;
            end.hear();
            Ok(())
        }
        _ => Ok(()),
    }
}

/// Looks at what a device sent in its turn on each of its links, and cuts those that it closed. It
/// fails only for want of memory.
pub(crate) fn look_all(device: &Device, number: u8, links: &mut [Link]) -> Result<(), AllocError>
    ensures { OnOk result (links.new ≡ map (look_link number device.now) links.old) }
{
    'links: for link in links.iter_mut() {
        look_on(device, number, link)?;
    }
    Ok(())
}

// Looks at what a device sent on a link, and cuts it where the device closed it.
fn look_on(device: &Device, number: u8, link: &mut Link) -> Result<(), AllocError>
    ensures { OnOk result (link.new ≡ look_link number device.now link.old) }
{
    let closed = match link.side_of(number) {
        Some(Side::Near) => look(device, &mut link.near, link.is_cut)?,
        Some(Side::Far) => look(device, &mut link.far, link.is_cut)?,
        None => false,
    };
    if closed {
        link.cut();
    }
    Ok(())
}

// Looks at what was sent at this end. Answers whether the link was closed there.
fn look(device: &Device, end: &mut End, is_cut: bool) -> Result<bool, AllocError>
    ensures looked { OnOk result (end.new ≡ look_at device.now is_cut end.old.at end.old) }
    ensures closed { IfOk result (λ closed. closed ≡ shut_at device.now end.old.at) }
{
    let Some(at) = end.at() else {
        return Ok(false);
    };
    end.look(device.sent(at), is_cut)?;
    Ok(device.is_closed(at))
}

/// A device has its links no more, and they are cut.
pub(crate) fn leave_all(number: u8, links: &mut [Link])
    ensures { links.new ≡ map (left_by number) links.old }
{
    'links: for link in links.iter_mut() {
        link.leave(number);
    }
}

/// All that is in flight on links that are not cut arrives, of each link first what the end sent
/// that dialled. Answers whether that was anything. It fails only for want of memory.
pub(crate) fn carry_all(links: &mut [Link]) -> Result<bool, AllocError>
    ensures some { IfOk result (λ some. some ≡ list_any is_moving links.old) }
    ensures carried { OnOk result (links.new ≡ map link_arrived links.old) }
{
    let mut some = false;
    'links: for link in links.iter_mut() {
        let carried = carry(link)?;
        some |= carried;
    }
    Ok(some)
}

// All that is in flight on a link arrives, unless it is cut. Answers whether that was anything.
fn carry(link: &mut Link) -> Result<bool, AllocError>
    ensures some { IfOk result (λ some. some ≡ is_moving link.old) }
    ensures carried { OnOk result (link.new ≡ link_arrived link.old) }
{
    if link.is_cut {
        return Ok(false);
    }
    let near = link.carry_all(Side::Near)?;
    let far = link.carry_all(Side::Far)?;
    Ok(near || far)
}
