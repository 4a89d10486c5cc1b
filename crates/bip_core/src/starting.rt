//! How a world begins.
ghost use Rattle.std.specs.Prelude.{◌≡◌, ◌<◌, All, IfOk, length, slice_get};
ghost use Rattle.bip_model.specs.Numbering.{last_number};
ghost use Rattle.bip_core.specs.Letters.{CanBeHandedOn};
ghost use Rattle.bip_core.specs.Starting.{AreFirstClasses, AreFirstComponents, AreOffersBelow};

use crate::mailbags::Mailbag;
use crate::sending::offer_to_all;
use bip_component::SrComponent;
use bip_ip::IpNode;
use bip_model::{ClassId, CompId, Number};
use bip_partition::Plan;
use std::alloc::{AllocError, Global};

/// The nodes of all components of a plan, at the start.
pub(crate) fn first_components<'p>(
    alloc: Global,
    plan: &'p Plan,
    base: Number,
) -> Result<Vec<SrComponent<'p>>, AllocError>
    requires { base < last_number }
    ensures { IfOk result (λ nodes. AreFirstComponents plan.now base nodes.items) }
{
    let mut nodes = Vec::new(alloc);
    for number in 0..plan.model().components().len() {
        nodes.push(SrComponent::start(plan, CompId(number as u16), base))?;
    }
    Ok(nodes)
}

/// The nodes of all its classes.
pub(crate) fn first_classes<'p>(
    alloc: Global,
    plan: &'p Plan,
    base: Number,
) -> Result<Vec<IpNode<'p>>, AllocError>
    requires { base < last_number }
    ensures { IfOk result (λ nodes. AreFirstClasses plan.now base nodes.items) }
{
    let mut nodes = Vec::new(alloc);
    for number in 0..plan.classes().len() {
        nodes.push(IpNode::new(alloc, plan, ClassId(number as u16), base, 1)?)?;
    }
    Ok(nodes)
}

/// What the components offer first: by component, to each class that touches it, by class.
pub(crate) fn first_offers(
    alloc: Global,
    plan: &Plan,
    base: Number,
    components: &[SrComponent<'_>],
) -> Result<Mailbag, AllocError>
    requires { AreFirstComponents plan.now base components.now }
    ensures offers { IfOk result (λ mail. AreOffersBelow (length plan.now.model.components)
        plan.now (λ c. slice_get components.now c) mail) }
    ensures accepted { IfOk result (All (CanBeHandedOn plan.now)) }
{
    let mut mail = Mailbag::new(alloc);
    plan.recall();
    for component in components {
        component.recall();
        let Some(offer) = component.offer() else {
            unreachable!();
        };
        if offer_to_all(&mut mail, plan.classes_of(offer.comp), &offer) > 0 {
            return Err(AllocError);
        }
    }
    Ok(mail)
}
