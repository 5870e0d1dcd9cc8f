//! The scripts of `examples/`, each with its answer. `examples/compare --write` writes this file; `tests` says how a table
//! is read.

pub(crate) const EXAMPLES: &str = "\
==== check
\\setup
create table account (id integer, part integer, amount bigint default 0, primary key (id, part));
create table payment (
    no integer primary key,
    account integer,
    part integer default 1,
    foreign key (account, part) references account on delete set default (part) initially deferred
);
create table log (no integer, why text);
create function keep() returns trigger language plpgsql as $$
begin
    begin
        insert into account (id, part) values (new.account, new.part);
    exception
        when unique_violation then
            update account set amount = amount + 1 where id = new.account and part = new.part;
        when not_null_violation or sqlstate '22003' then
            insert into log values (new.no, 'no account');
    end;
    return null;
exception when others then
    raise exception 'the payment is not kept';
end $$;
create trigger keep_payment after insert on payment
    for each row execute function keep();
\\session a
insert into payment (no, account) values (1, 7), (2, 7);

---- 0
\\setup
CREATE TABLE account (id integer, part integer, amount bigint DEFAULT 0, PRIMARY KEY (id, part));
CREATE TABLE payment (no integer PRIMARY KEY, account integer, part integer DEFAULT 1, FOREIGN KEY (account, part) REFERENCES account ON DELETE SET DEFAULT (part) DEFERRABLE INITIALLY DEFERRED);
CREATE TABLE log (no integer, why text);
CREATE FUNCTION keep() RETURNS trigger LANGUAGE plpgsql AS $$ BEGIN BEGIN INSERT INTO account (id, part) VALUES (NEW.account, NEW.part); EXCEPTION WHEN unique_violation THEN UPDATE account SET amount = amount + 1 WHERE (id = NEW.account) AND (part = NEW.part); WHEN not_null_violation OR SQLSTATE '22003' THEN INSERT INTO log VALUES (NEW.no, 'no account'); END; RETURN NULL; EXCEPTION WHEN OTHERS THEN RAISE EXCEPTION 'the payment is not kept'; END $$;
CREATE TRIGGER keep_payment AFTER INSERT ON payment FOR EACH ROW EXECUTE FUNCTION keep();
\\session a
INSERT INTO payment (no, account) VALUES (1, 7), (2, 7);
==== replay
\\setup
CREATE TABLE p (id integer PRIMARY KEY);
CREATE TABLE c (pid integer REFERENCES p);
\\session a
INSERT INTO p VALUES (1);
INSERT INTO c VALUES (1);
BEGIN;
DELETE FROM p;
INSERT INTO p VALUES (2);
COMMIT;

---- 0
a.1: INSERT 0 1
a.2: INSERT 0 1
a.3: BEGIN
a.4: ERROR 23503 update or delete on table \"p\" violates foreign key constraint \"c_pid_fkey\" on table \"c\"
a.4: DETAIL Key (id)=(1) is still referenced from table \"c\".
a.5: ERROR 25P02 current transaction is aborted, commands ignored until end of transaction block
a.6: ROLLBACK
table p (id)
(1)
table c (pid)
(1)
schedule a*21
==== replay
\\setup
CREATE TABLE p (id integer PRIMARY KEY);
CREATE TABLE c (pid integer REFERENCES p DEFERRABLE INITIALLY DEFERRED);
\\session a
BEGIN;
INSERT INTO c VALUES (1);
INSERT INTO p VALUES (1);
COMMIT;
BEGIN;
INSERT INTO c VALUES (9);
COMMIT;

---- 0
a.1: BEGIN
a.2: INSERT 0 1
a.3: INSERT 0 1
a.4: COMMIT
a.5: BEGIN
a.6: INSERT 0 1
a.7: ERROR 23503 insert or update on table \"c\" violates foreign key constraint \"c_pid_fkey\"
a.7: DETAIL Key (pid)=(9) is not present in table \"p\".
table p (id)
(1)
table c (pid)
(1)
schedule a*22
==== check|replay
-- A trigger fires after its event: this script is refused on line 4.
\\setup
CREATE TABLE item (id integer PRIMARY KEY, price integer);
CREATE TRIGGER check_price BEFORE INSERT ON item FOR EACH ROW EXECUTE FUNCTION check_price();
\\session shop
INSERT INTO item VALUES (1, 250);

---- 2
aqueue: line 4: 0A000 BEFORE triggers are not supported
==== replay
\\setup
CREATE TABLE p (id integer PRIMARY KEY);
CREATE TABLE c (pid integer REFERENCES p);
\\session a
INSERT INTO p VALUES (1);
INSERT INTO c VALUES (1);
INSERT INTO c VALUES (2);

---- 0
a.1: INSERT 0 1
a.2: INSERT 0 1
a.3: ERROR 23503 insert or update on table \"c\" violates foreign key constraint \"c_pid_fkey\"
a.3: DETAIL Key (pid)=(2) is not present in table \"p\".
table p (id)
(1)
table c (pid)
(1)
schedule a*18
==== check
\\setup
create table customer (id integer primary key, nick text unique);
create table orders (
    id integer primary key,
    customer integer not null references customer on delete cascade,
    friend text references customer (nick) match full on update cascade initially deferred
);
create table line (
    orders integer,
    no integer,
    primary key (orders, no),
    constraint line_order foreign key (orders) references orders on delete restrict
);
alter table customer add unique (nick, id);

---- 0
\\setup
CREATE TABLE customer (id integer PRIMARY KEY, nick text UNIQUE);
CREATE TABLE orders (id integer PRIMARY KEY, customer integer NOT NULL REFERENCES customer ON DELETE CASCADE, friend text REFERENCES customer (nick) MATCH FULL ON UPDATE CASCADE DEFERRABLE INITIALLY DEFERRED);
CREATE TABLE line (orders integer, no integer, PRIMARY KEY (orders, no), CONSTRAINT line_order FOREIGN KEY (orders) REFERENCES orders ON DELETE RESTRICT);
ALTER TABLE customer ADD UNIQUE (nick, id);
==== check|replay
\\setup
create table parent (id integer primary key, name text);
create table child (
    parent integer references parent (name)
);

---- 2
aqueue: line 3: 42830 there is no unique constraint matching given keys for referenced table \"parent\"
==== replay
\\setup
CREATE TABLE item (id integer PRIMARY KEY, price integer);
\\session shop
INSERT INTO item VALUES (1, 250), (2, 300), (1, 275), (3, 120);
INSERT INTO item VALUES (3, 120);

---- 0
shop.1: ERROR 23505 duplicate key value violates unique constraint \"item_pkey\"
shop.1: DETAIL Key (id)=(1) already exists.
shop.2: INSERT 0 1
table item (id, price)
(3, 120)
schedule shop*10
==== check
\\setup
create table account (id integer primary key, amount bigint not null default 0);
\\session payer
begin isolation level repeatable read;
update account set amount = amount - 10 where id = 1;
savepoint before_fee;
update account set amount = amount - 1 where id = 1 and not amount is null;
rollback to before_fee;
commit;
\\session reader
select id, amount from account where amount > 0 or id = 1 + 2 * 3 for share;
\\schedule payer*3 reader payer*2

---- 0
\\setup
CREATE TABLE account (id integer PRIMARY KEY, amount bigint NOT NULL DEFAULT 0);
\\session payer
BEGIN ISOLATION LEVEL REPEATABLE READ;
UPDATE account SET amount = amount - 10 WHERE id = 1;
SAVEPOINT before_fee;
UPDATE account SET amount = amount - 1 WHERE (id = 1) AND (NOT (amount IS NULL));
ROLLBACK TO before_fee;
COMMIT;
\\session reader
SELECT id, amount FROM account WHERE (amount > 0) OR (id = (1 + (2 * 3))) FOR SHARE;
\\schedule payer*3 reader*1 payer*2
==== check
\\setup
create table item (
    id int primary key,
    code text not null unique,
    price bigint default 100,
    sold bool default false,
    \"Note\" text
);
create table stock (shelf int, place int, item int, primary key (shelf, place));
\\session a
insert into item values (1, 'pen', default, default, 'it''s blue');
insert into item (id, code) values (2, 'ink'), (3, 'cap');

---- 0
\\setup
CREATE TABLE item (id integer PRIMARY KEY, code text NOT NULL UNIQUE, price bigint DEFAULT 100, sold boolean DEFAULT FALSE, \"Note\" text);
CREATE TABLE stock (shelf integer, place integer, item integer, PRIMARY KEY (shelf, place));
\\session a
INSERT INTO item VALUES (1, 'pen', DEFAULT, DEFAULT, 'it''s blue');
INSERT INTO item (id, code) VALUES (2, 'ink'), (3, 'cap');
==== replay
\\setup
CREATE TABLE node (id integer PRIMARY KEY, weight integer);
CREATE TABLE edge (source integer REFERENCES node, target integer REFERENCES node);

---- 0
table node (id, weight)
table edge (source, target)
schedule
==== replay
\\setup
CREATE TABLE node (id integer PRIMARY KEY, up integer REFERENCES node);
\\session a
INSERT INTO node VALUES (1, NULL), (2, 1);
DELETE FROM node;

---- 0
a.1: INSERT 0 2
a.2: DELETE 2
table node (id, up)
schedule a*19
==== check
\\setup
create table item (id integer primary key, price integer);
create table log (id integer, old_price integer, new_price integer);
create function note() returns trigger language plpgsql as $$
begin
    if new.price is distinct from old.price then
        insert into log values (new.id, old.price, new.price);
    elsif tg_op = 'UPDATE' then
        raise exception 'nothing has changed';
    end if;
    return null;
end $$;
create trigger note_price after update of price on item
    for each row when (new.price > 0) execute function note();
create constraint trigger note_later after update on item
    deferrable initially deferred for each row execute function note();
\\session a
begin;
set constraints note_later immediate;
update item set price = 5;
commit;

---- 0
\\setup
CREATE TABLE item (id integer PRIMARY KEY, price integer);
CREATE TABLE log (id integer, old_price integer, new_price integer);
CREATE FUNCTION note() RETURNS trigger LANGUAGE plpgsql AS $$ BEGIN IF NEW.price IS DISTINCT FROM OLD.price THEN INSERT INTO log VALUES (NEW.id, OLD.price, NEW.price); ELSIF TG_OP = 'UPDATE' THEN RAISE EXCEPTION 'nothing has changed'; END IF; RETURN NULL; END $$;
CREATE TRIGGER note_price AFTER UPDATE OF price ON item FOR EACH ROW WHEN (NEW.price > 0) EXECUTE FUNCTION note();
CREATE CONSTRAINT TRIGGER note_later AFTER UPDATE ON item DEFERRABLE INITIALLY DEFERRED FOR EACH ROW EXECUTE FUNCTION note();
\\session a
BEGIN;
SET CONSTRAINTS note_later IMMEDIATE;
UPDATE item SET price = 5;
COMMIT;
==== replay
\\setup
CREATE TABLE customer (id integer PRIMARY KEY);
CREATE TABLE product (price integer, id integer PRIMARY KEY);
CREATE TABLE purchase (buyer integer REFERENCES customer, bought integer REFERENCES product);
\\session a
INSERT INTO customer VALUES (1);
INSERT INTO product VALUES (500, 2);
INSERT INTO purchase VALUES (1, 2), (1, 5);
INSERT INTO purchase VALUES (1, 2);

---- 0
a.1: INSERT 0 1
a.2: INSERT 0 1
a.3: ERROR 23503 insert or update on table \"purchase\" violates foreign key constraint \"purchase_bought_fkey\"
a.3: DETAIL Key (bought)=(5) is not present in table \"product\".
a.4: INSERT 0 1
table customer (id)
(1)
table product (price, id)
(500, 2)
table purchase (buyer, bought)
(1, 2)
schedule a*28
";
