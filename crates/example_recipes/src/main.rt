//! Runs each recipe once, and prints what it gives.
#![tactic(auto)]

mod accounts;
mod batches;
mod books;
mod orders;
mod shared;

use crate::accounts::{Account, transfer};
use crate::batches::{load_free, refused};
use crate::books::{Book, enter};
use crate::orders::{Order, cheapest, replace_all, swap_places};
use crate::shared::open;
use iddqd_bi::BiHashMap;
use std::alloc::Global;
use std::rc::Rc;

/// Adds three orders.
fn add_three(orders: &mut BiHashMap<Order>) -> anyhow::Result<()> {
    orders.try_insert(Order::new(1, 10, 300))?;
    orders.try_insert(Order::new(2, 20, 100))?;
    orders.try_insert(Order::new(3, 30, 200))?;
    Ok(())
}

/// Returns the order with this number, or one with zeros.
fn order_of(orders: &BiHashMap<Order>, number: u64) -> Order {
    match orders.get1(&number) {
        Some(order) => *order,
        None => Order::new(0, 0, 0),
    }
}

fn show_cheapest(rt: &impl Print, alloc: Global, orders: &BiHashMap<Order>) -> anyhow::Result<()> {
    for cheap in &cheapest(alloc, orders, 2)? {
        println!(rt; "cheap: {}", cheap.number)?;
    }
    Ok(())
}

/// Replaces two orders. Returns whether that was done, and whether the map is equal to what it was before.
fn replace_two(
    alloc: Global,
    orders: &mut BiHashMap<Order>,
    changed: [Order; 2],
) -> anyhow::Result<(bool, bool)> {
    let changed = Vec::from_array(alloc, changed)?;
    let before = orders.clone()?;
    let done = replace_all(orders, changed)?;
    Ok((done, *orders == before))
}

/// Replaces two orders, and shows what becomes of the first of them.
fn show_replaced(
    rt: &impl Print,
    alloc: Global,
    orders: &mut BiHashMap<Order>,
    changed: [Order; 2],
) -> anyhow::Result<()> {
    let (done, same) = replace_two(alloc, orders, changed)?;
    let first = order_of(orders, 1);
    println!(rt;
        "replaced: {done}, the first is at {} for {}, the map is equal: {same}",
        first.place, first.price
    )?;
    Ok(())
}

fn show_swapped(rt: &impl Print, orders: &mut BiHashMap<Order>) -> anyhow::Result<()> {
    let swapped = swap_places(orders, 1, 3);
    println!(rt;
        "swapped: {swapped}, the first is at {}, the third at {}",
        order_of(orders, 1).place,
        order_of(orders, 3).place
    )?;
    Ok(())
}

/// Adds three orders, and shows what each recipe makes of them.
fn show_changes(
    rt: &impl Print,
    alloc: Global,
    orders: &mut BiHashMap<Order>,
) -> anyhow::Result<()> {
    add_three(orders)?;
    show_cheapest(rt, alloc, orders)?;
    show_replaced(
        rt,
        alloc,
        orders,
        [Order::new(1, 11, 0), Order::new(9, 20, 0)],
    )?;
    show_replaced(
        rt,
        alloc,
        orders,
        [Order::new(1, 10, 250), Order::new(3, 30, 150)],
    )?;
    show_swapped(rt, orders)
}

/// Runs the recipes for orders on one map.
fn show_orders(rt: &impl Print, alloc: Global) -> anyhow::Result<()> {
    let mut orders = BiHashMap::new(alloc);
    show_changes(rt, alloc, &mut orders)
}

/// Adds a book, and enters an order into it, and then one with the same number.
fn show_entered(rt: &impl Print, alloc: Global, books: &mut BiHashMap<Book>) -> anyhow::Result<()> {
    books.try_insert(Book {
        name: "bonds".to_string(alloc)?,
        shelf: 1,
        orders: BiHashMap::new(alloc),
    })?;
    let entered = enter(books, "bonds", Order::new(1, 10, 300));
    let again = enter(books, "bonds", Order::new(1, 20, 300));
    println!(rt; "entered: {entered}, and again: {again}")?;
    Ok(())
}

/// Runs the recipe with maps in a map.
fn show_books(rt: &impl Print, alloc: Global) -> anyhow::Result<()> {
    let mut books = BiHashMap::new(alloc);
    show_entered(rt, alloc, &mut books)
}

/// Opens two orders, and closes one of them.
fn show_opened(
    rt: &impl Print,
    alloc: Global,
    all: &mut BiHashMap<Rc<Order>>,
    opened: &mut BiHashMap<Rc<Order>>,
) -> anyhow::Result<()> {
    open(alloc, all, opened, Order::new(1, 10, 300))?;
    open(alloc, all, opened, Order::new(2, 20, 100))?;
    let closed = opened.remove1(&2).is_some();
    println!(rt;
        "closed: {closed}, {} of {} are open",
        opened.len(),
        all.len()
    )?;
    Ok(())
}

/// Opens an order at the place of one that is open, and that was removed from all orders.
fn show_not_opened(
    rt: &impl Print,
    alloc: Global,
    all: &mut BiHashMap<Rc<Order>>,
    opened: &mut BiHashMap<Rc<Order>>,
) -> anyhow::Result<()> {
    all.remove1(&1);
    let done = open(alloc, all, opened, Order::new(3, 10, 50)).is_ok();
    println!(rt; "opened: {done}, {} among all", all.len())?;
    Ok(())
}

/// Opens orders, and shows which of the two maps have them.
fn show_both(
    rt: &impl Print,
    alloc: Global,
    all: &mut BiHashMap<Rc<Order>>,
    opened: &mut BiHashMap<Rc<Order>>,
) -> anyhow::Result<()> {
    show_opened(rt, alloc, all, opened)?;
    show_not_opened(rt, alloc, all, opened)
}

/// Runs the recipe with items that two maps share.
fn show_shared(rt: &impl Print, alloc: Global) -> anyhow::Result<()> {
    let mut all = BiHashMap::new(alloc);
    let mut opened = BiHashMap::new(alloc);
    show_both(rt, alloc, &mut all, &mut opened)
}

/// Adds two accounts.
fn add_accounts(accounts: &mut BiHashMap<Account>) -> anyhow::Result<()> {
    for (number, holder, balance) in [(1, 10, 500), (2, 20, 100)] {
        accounts.try_insert(Account {
            number,
            holder,
            balance,
        })?;
    }
    Ok(())
}

/// Returns the balance of the account with this number.
fn balance_of(accounts: &BiHashMap<Account>, number: u64) -> u64 {
    match accounts.get1(&number) {
        Some(account) => account.balance,
        None => 0,
    }
}

/// Moves an amount between two accounts, and then one that the first has not.
fn show_moved(rt: &impl Print, accounts: &mut BiHashMap<Account>) -> anyhow::Result<()> {
    add_accounts(accounts)?;
    let moved = transfer(accounts, 1, 2, 300);
    let again = transfer(accounts, 1, 2, 300);
    println!(rt;
        "moved: {moved}, and again: {again}, the balances are {} and {}",
        balance_of(accounts, 1),
        balance_of(accounts, 2)
    )?;
    Ok(())
}

/// Runs the recipe with accounts.
fn show_accounts(rt: &impl Print, alloc: Global) -> anyhow::Result<()> {
    let mut accounts = BiHashMap::new(alloc);
    show_moved(rt, &mut accounts)
}

/// Prints which orders of a batch are refused, and how many others are added.
fn show_added(
    rt: &impl Print,
    alloc: Global,
    orders: &mut BiHashMap<Order>,
    batch: [Order; 4],
) -> anyhow::Result<()> {
    add_three(orders)?;
    let batch = Vec::from_array(alloc, batch)?;
    for order in &refused(alloc, orders, batch.as_slice())? {
        println!(rt; "refused: {} at {}", order.number, order.place)?;
    }
    let others = load_free(alloc, orders, batch)?;
    println!(rt; "{} orders, {} refused", orders.len(), others.len())?;
    Ok(())
}

/// Runs the recipes for batches of orders.
fn show_batches(rt: &impl Print, alloc: Global) -> anyhow::Result<()> {
    let mut orders = BiHashMap::new(alloc);
    let batch = [
        Order::new(4, 40, 0),
        Order::new(5, 10, 0),
        Order::new(6, 60, 0),
        Order::new(6, 70, 0),
    ];
    show_added(rt, alloc, &mut orders, batch)
}

fn main(rt: HostRuntime) -> anyhow::Result<()> {
    show_orders(&rt, rt.alloc())?;
    show_batches(&rt, rt.alloc())?;
    show_accounts(&rt, rt.alloc())?;
    show_books(&rt, rt.alloc())?;
    show_shared(&rt, rt.alloc())
}
