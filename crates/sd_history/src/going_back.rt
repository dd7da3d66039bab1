//! Which checkpoints can be restored.
ghost use Rattle.std.specs.Prelude.{◌≡◌, ◌≢◌, ◌↔◌, ℕ, false, List, IsTrue, IfOk, IfErr, OnOk};
ghost use Rattle.sd_chain.specs.Store.{IsCatalogOf};
ghost use Rattle.sd_chain.specs.Ways.{AreImages};
ghost use Rattle.sd_restore.specs.Faulty.{FaultNames};
ghost use Rattle.sd_history.specs.Restorable.{AreRestorable, GoesBackTo, IsOfStore, KeepsOne};

use sd_chain::Catalog;
use sd_restore::{Fault, place_at};
use std::alloc::Global;

/// What a fault says of a checkpoint: that it can't be restored, where it is one of the store.
fn absent_by(fault: Fault) -> Result<bool, Fault>
    ensures absent { IfOk result (λ is. IsOfStore fault × (is ≡ false)) }
    ensures unnamed { IfErr result (FaultNames (λ _ _. ⊥)) }
    ensures same { IfErr result (λ error. error ≡ fault) }
    ensures empty { result ≢ Err Fault.EmptyChain }
{
    match fault {
        Fault::EmptyChain | Fault::Damaged { .. } => Ok(false),
        Fault::Device | Fault::OutOfMemory => Err(fault),
    }
}

/// Finds where the memory at a checkpoint lies.
fn place_one(alloc: Global, catalog: &Catalog, number: u64) -> Result<(), Fault>
    requires { AreImages catalog.now }
    ensures goes { (contents : List (List ℕ)) → IsCatalogOf contents catalog.now
        → IfOk result (λ _. GoesBackTo contents number) }
    ensures good { (contents : List (List ℕ)) → IsCatalogOf contents catalog.now
        → GoesBackTo contents number → IfErr result (FaultNames (λ _ _. ⊥)) }
    ensures saved { (contents : List (List ℕ)) → IsCatalogOf contents catalog.now
        → GoesBackTo contents number → result ≢ Err Fault.EmptyChain }
    ensures device { result ≢ Err Fault.Device }
{
    place_at(alloc, catalog, number)?;
    Ok(())
}

/// Whether a checkpoint of a catalog can be restored. It reads no page.
fn is_restorable(alloc: Global, catalog: &Catalog, number: u64) -> Result<bool, Fault>
    requires { AreImages catalog.now }
    ensures exact { (contents : List (List ℕ)) → IsCatalogOf contents catalog.now
        → IfOk result (λ is. IsTrue is ↔ GoesBackTo contents number) }
    ensures unnamed { IfErr result (FaultNames (λ _ _. ⊥)) }
    ensures device { result ≢ Err Fault.Device }
    ensures empty { result ≢ Err Fault.EmptyChain }
{
    match place_one(alloc, catalog, number) {
        Ok(()) => Ok(true),
        Err(fault) => absent_by(fault),
    }
}

/// Puts a checkpoint after the others, where it can be restored.
fn keep_restorable(
    alloc: Global,
    catalog: &Catalog,
    number: u64,
    kept: &mut Vec<u64>,
) -> Result<(), Fault>
    requires { AreImages catalog.now }
    ensures exact { (contents : List (List ℕ)) → IsCatalogOf contents catalog.now
        → OnOk result (KeepsOne contents number kept.old.items kept.new.items) }
    ensures unnamed { IfErr result (FaultNames (λ _ _. ⊥)) }
    ensures device { result ≢ Err Fault.Device }
    ensures empty { result ≢ Err Fault.EmptyChain }
{
    if is_restorable(alloc, catalog, number)? {
        kept.push(number)?;
    }
    Ok(())
}

/// The checkpoints of a catalog that can be restored, each once, newest first. It reads no page.
///
/// # Errors
///
/// `OutOfMemory` alone.
pub fn restorable(alloc: Global, catalog: &Catalog) -> Result<Vec<u64>, Fault>
    requires { AreImages catalog.now }
    // Where it is the catalog of contents, these are exactly the checkpoints at which they have a memory.
    ensures exact { (contents : List (List ℕ)) → IsCatalogOf contents catalog.now
        → IfOk result (λ numbers. AreRestorable contents numbers.items) }
    ensures unnamed { IfErr result (FaultNames (λ _ _. ⊥)) }
    ensures device { result ≢ Err Fault.Device }
    ensures empty { result ≢ Err Fault.EmptyChain }
{
    catalog.has_the_images();
    let numbers = catalog.checkpoints()?;
    let mut kept = Vec::new(alloc);
    for number in &numbers {
        keep_restorable(alloc, catalog, *number, &mut kept)?;
    }
    Ok(kept)
}
