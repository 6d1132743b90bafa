ghost use Rattle.std.specs.Prelude.{◌≡◌, ◌≢◌, ◌≤◌, ◌<◌, ◌-◌, ◌*◌, ℕ, true, false, IfOk, IfSome, is_some, length, slice_index};
ghost use Rattle.std.specs.Option.{ForSome};
ghost use Rattle.column_codec.specs.ObjectKeys.{ArePoints, AreMaskKeys, HasWeights, AreTabled};

use crate::tables::WeightTables;
use crate::weights::weights;
use file_layout::FileShape;
use hail_field::{Memory, Shape, Symbol};
use key_schedule::{Master, file_key, point};
use std::alloc::Global;

/// What the columns of one object are made with: its points, the weights of the primary symbols at the points
/// of its secondary providers, and the keys of its masks. They are derived once, so keep this for as long as
/// stripes of the object are made or opened. With tables of the weights, which take memory, rows take a tenth
/// of the time.
#[derive(Drop)]
pub struct ObjectKeys {
    pub master: Master,
    pub file: FileShape,
    pub(crate) points: [Symbol; 16],
    pub(crate) weights: [[Symbol; 16]; 16],
    pub(crate) mask_keys: [[u8; 32]; 16],
    pub(crate) tables: Option<WeightTables>,
    pub ghost points_are: { ArePoints file.shape.n file.shape.l master.0 file.id points },
    pub ghost has_weights: { HasWeights file.shape.n file.shape.l points weights },
    pub ghost are_tabled: { ForSome tables (λ all. AreTabled file.shape.n file.shape.l weights all) },
    pub ghost mask_keys_are: { AreMaskKeys file.shape.n master.0 file.id mask_keys },
}

/// The points of the providers of a file's object, the first `n` of them.
fn points(master: &Master, file: &FileShape) -> [Symbol; 16]
    ensures { ArePoints file.now.shape.n file.now.shape.l master.now.0 file.now.id result }
{
    let mut points = [Symbol::ZERO; 16];
    for j in 0..file.shape.n {
        points[usize::from(j)] = point(master, u32::from(file.shape.l), file.id, u32::from(j));
    }
    points
}

/// The keys of the masks of the providers of a file's object, the first `n` of them.
fn mask_keys(master: &Master, file: &FileShape) -> [[u8; 32]; 16]
    ensures { AreMaskKeys file.now.shape.n master.now.0 file.now.id result }
{
    let mut keys = [[0; 32]; 16];
    for j in 0..file.shape.n {
        keys[usize::from(j)] = file_key(master, b'M', file.id, u32::from(j));
    }
    keys
}

/// The weights at the points from place l on, which are none of the points 0 to l - 1.
fn all_weights(shape: Shape, points: &[Symbol; 16]) -> [[Symbol; 16]; 16]
    requires { (j p : ℕ) → shape.l ≤ j → j < shape.n → p < shape.l → slice_index points.now j ≢ p }
    ensures { HasWeights shape.n shape.l points.now result }
{
    let mut all = [[Symbol::ZERO; 16]; 16];
    for j in shape.l..shape.n {
        all[usize::from(j)] = weights(points[usize::from(j)], shape.l);
    }
    all
}

impl ObjectKeys {
    ghost use Rattle.column_codec.specs.Tabled.{has_tables};

    /// The keys of a file's object under a master key, without tables and so without memory.
    pub fn new(master: &Master, file: &FileShape) -> ObjectKeys
        ensures master { result.master ≡ master.now }
        ensures file { result.file ≡ file.now }
        ensures tables { has_tables result ≡ false }
    {
        let points = points(master, file);
        ObjectKeys {
            master: *master,
            file: *file,
            points,
            weights: all_weights(file.shape, &points),
            mask_keys: mask_keys(master, file),
            tables: None,
        }
    }

    /// The same keys with tables of the weights: 8 KiB for each secondary provider and each primary one but
    /// the first.
    pub fn with_tables(
        alloc: Global,
        master: &Master,
        file: &FileShape,
    ) -> Result<ObjectKeys, Memory>
        ensures master { IfOk result (λ keys. keys.master ≡ master.now) }
        ensures file { IfOk result (λ keys. keys.file ≡ file.now) }
        ensures tables { IfOk result (λ keys. has_tables keys ≡ true) }
    {
        let mut keys = ObjectKeys::new(master, file);
        keys.tables = Some(WeightTables::new(alloc, file.shape, &keys.weights)?);
        Ok(keys)
    }

    /// Turns to another object of the same shape and profile. Tables, where there are any, are made anew in
    /// their room.
    pub fn turn_to(&mut self, id: u64)
        ensures master { self.new.master ≡ self.old.master }
        ensures id { self.new.file.id ≡ id }
        ensures length { self.new.file.length ≡ self.old.file.length }
        ensures shape { self.new.file.shape ≡ self.old.file.shape }
        ensures profile { self.new.file.profile ≡ self.old.file.profile }
        ensures tables { has_tables self.new ≡ has_tables self.old }
    {
        let file = FileShape {
            id,
            length: self.file.length,
            shape: self.file.shape,
            profile: self.file.profile,
        };
        let mut keys = ObjectKeys::new(&self.master, &file);
        keys.tables = turned(self.tables.take(), file.shape, &keys.weights);
        *self = keys;
    }
}

/// Tables, where there are any, of other weights.
fn turned(
    tables: Option<WeightTables>,
    shape: Shape,
    weights: &[[Symbol; 16]; 16],
) -> Option<WeightTables>
    requires { IfSome tables (λ all. length all ≡ (shape.n - shape.l) * (shape.l - 1)) }
    ensures made { IfSome result (λ all. AreTabled shape.n shape.l weights.now all) }
    ensures there { is_some result ≡ is_some tables }
{
    match tables {
        Some(mut all) => {
            all.turn_to(shape, weights);
            Some(all)
        }
        None => None,
    }
}
