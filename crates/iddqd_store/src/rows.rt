//! Ready items: one, two or three keys with a value beside them.
ghost use Rattle.std.specs.Prelude.{◌≡◌};

/// An item with one key and a value, for an `IdHashMap` or an `IdOrdMap`. It needs no `impl`: its data is the value.
///
/// ```text
/// let mut ages = IdHashMap::<Row1<String, u32>>::new(alloc);
/// ages.try_insert(Row1::new(name, 36))?;
/// let age = ages.get("ada").map(|row| row.value);
/// ```
#[derive(Clone, Debug, Drop, PartialEq)]
pub struct Row1<K, D> {
    /// The key.
    pub key: K,
    /// What belongs to the key.
    pub value: D,
}

impl<K, D> Row1<K, D> {
    /// Makes an item of its key and its value.
    pub fn new(key: K, value: D) -> Self
        ensures key { result.key ≡ key }
        ensures value { result.value ≡ value }
    {
        Row1 { key, value }
    }
}

/// An item with two keys and a value, for a `BiHashMap`. It needs no `impl`: its data is the value.
///
/// ```text
/// let mut ports = BiHashMap::<Row2<u16, String, Port>>::new(alloc);
/// ports.try_insert(Row2::new(80, name, port))?;
/// let port = ports.get2("http").map(|row| &row.value);
/// ```
#[derive(Clone, Debug, Drop, PartialEq)]
pub struct Row2<K1, K2, D> {
    /// The first key.
    pub key1: K1,
    /// The second key.
    pub key2: K2,
    /// What belongs to the keys.
    pub value: D,
}

impl<K1, K2, D> Row2<K1, K2, D> {
    /// Makes an item of its keys and its value.
    pub fn new(key1: K1, key2: K2, value: D) -> Self
        ensures key1 { result.key1 ≡ key1 }
        ensures key2 { result.key2 ≡ key2 }
        ensures value { result.value ≡ value }
    {
        Row2 { key1, key2, value }
    }
}

/// An item with three keys and a value, for a `TriHashMap`. It needs no `impl`: its data is the value.
///
/// ```text
/// let mut people = TriHashMap::<Row3<u32, String, String, Person>>::new(alloc);
/// people.try_insert(Row3::new(7, name, email, person))?;
/// let person = people.get3("ada@example.org").map(|row| &row.value);
/// ```
#[derive(Clone, Debug, Drop, PartialEq)]
pub struct Row3<K1, K2, K3, D> {
    /// The first key.
    pub key1: K1,
    /// The second key.
    pub key2: K2,
    /// The third key.
    pub key3: K3,
    /// What belongs to the keys.
    pub value: D,
}

impl<K1, K2, K3, D> Row3<K1, K2, K3, D> {
    /// Makes an item of its keys and its value.
    pub fn new(key1: K1, key2: K2, key3: K3, value: D) -> Self
        ensures key1 { result.key1 ≡ key1 }
        ensures key2 { result.key2 ≡ key2 }
        ensures key3 { result.key3 ≡ key3 }
        ensures value { result.value ≡ value }
    {
        Row3 {
            key1,
            key2,
            key3,
            value,
        }
    }
}
