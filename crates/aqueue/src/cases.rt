//! The cases of the whole program, as a table. `tests` says how it is read.

/// A script with a child whose parent is missing.
pub(crate) const PARENT_AND_CHILD: &str = "\\setup
CREATE TABLE p (id integer PRIMARY KEY);
CREATE TABLE c (pid integer REFERENCES p);
\\session a
INSERT INTO p VALUES (1); INSERT INTO c VALUES (1); INSERT INTO c VALUES (2);
";

/// The text of its run.
pub(crate) const ITS_TEXT: &str = "a.1: INSERT 0 1
a.2: INSERT 0 1
a.3: ERROR 23503 insert or update on table \"c\" violates foreign key constraint \"c_pid_fkey\"
a.3: DETAIL Key (pid)=(2) is not present in table \"p\".
table p (id)
(1)
table c (pid)
(1)
schedule a*18
";

pub(crate) const CASES: &str = "\
==== replay
\\setup
CREATE TABLE p (id integer PRIMARY KEY);
CREATE TABLE c (pid integer REFERENCES p);
\\session a
INSERT INTO p VALUES (1); INSERT INTO c VALUES (1); INSERT INTO c VALUES (2);

---- 0
a.1: INSERT 0 1
a.2: INSERT 0 1
a.3: ERROR 23503 insert or update on table \"c\" violates foreign key constraint \"c_pid_fkey\"
a.3: DETAIL Key (pid)=(2) is not present in table \"p\".
table p (id)
(1)
table c (pid)
(1)
schedule a*18
==== replay

---- 0
schedule
==== replay
\\setup
---- 0
schedule
==== replay
\\session a
---- 0
schedule a*1
==== replay
\\setup CREATE TABLE T (Id INTEGER);
---- 0
table t (id)
schedule
==== replay
\\setup CREATE TABLE t (id text);
---- 2
aqueue: line 1: 0A000 this form is not built
==== replay
\\session a SELECT * FROM t;
---- 2
aqueue: line 1: 0A000 this form is not built
==== replay
\\session a INSERT INTO t VALUES (1);
---- 2
aqueue: line 1: 0A000 this form is not built
==== replay
\\session a DELETE FROM t;
---- 2
aqueue: line 1: 0A000 this form is not built
==== replay
\\session a COMMIT WORK;
---- 0
a.1: WARNING 25P01 there is no transaction in progress
a.1: COMMIT
schedule a*2
==== replay
\\session a BEGIN; ROLLBACK;
---- 0
a.1: BEGIN
a.2: ROLLBACK
schedule a*3
==== replay
-- nothing
---- 0
schedule
==== replay
\\setup
CREATE TABLE t (id integer);
CREATE TRIGGER x BEFORE INSERT ON t FOR EACH ROW EXECUTE FUNCTION f();
---- 2
aqueue: line 3: 0A000 BEFORE triggers are not supported
==== replay
\\session a
INSERT INTO t VALUES ('x
---- 2
aqueue: line 2: 42601 syntax error
==== replay
\\session a
COMMIT;
\\session a
---- 2
aqueue: line 3: 42710 session \"a\" already exists
==== replay
\\session a
COMMIT;

CREATE TABLE t (id integer);
---- 2
aqueue: line 4: 0A000 DDL outside setup is not supported
==== replay
\\setup CREATE TABLE t (id integer);
\\session a INSERT INTO t VALUES (1);
UPDATE t SET id = 2;
---- 2
aqueue: line 3: 0A000 this form is not built
==== replay
\\setup CREATE TABLE item (id integer PRIMARY KEY, price integer);
\\session shop INSERT INTO item VALUES (1, 250), (2, 300), (1, 275), (3, 120); INSERT INTO item VALUES (3, 120);
---- 0
shop.1: ERROR 23505 duplicate key value violates unique constraint \"item_pkey\"
shop.1: DETAIL Key (id)=(1) already exists.
shop.2: INSERT 0 1
table item (id, price)
(3, 120)
schedule shop*10
==== |Replay|replay replay|replay --trace|replay --trace --trace|run|check check|drill --rows 7|drill --rows 007
\\setup
CREATE TABLE p (id integer PRIMARY KEY);
CREATE TABLE c (pid integer REFERENCES p);
\\session a
INSERT INTO p VALUES (1); INSERT INTO c VALUES (1); INSERT INTO c VALUES (2);

---- 1
aqueue: usage: aqueue run [--trace] | replay [--trace] | check | drill --rows N
==== check

---- 0
==== check
\\setup
create table t (id int primary key, v text default 'x');
\\session a
insert into t values (1, default);
---- 0
\\setup
CREATE TABLE t (id integer PRIMARY KEY, v text DEFAULT 'x');
\\session a
INSERT INTO t VALUES (1, DEFAULT);
==== check
\\session a
select * from t where a+1*2=3 and not b;
---- 0
\\session a
SELECT * FROM t WHERE ((a + (1 * 2)) = 3) AND (NOT b);
==== check
\\setup
CREATE TABLE p (a integer, b integer, PRIMARY KEY (a, b), UNIQUE (b));
CREATE TABLE c (a integer, b integer,
FOREIGN KEY (a, b) REFERENCES p MATCH FULL ON UPDATE CASCADE ON DELETE SET NULL DEFERRABLE INITIALLY IMMEDIATE,
CONSTRAINT k FOREIGN KEY (b) REFERENCES p (b) MATCH SIMPLE ON DELETE NO ACTION NOT DEFERRABLE INITIALLY IMMEDIATE,
FOREIGN KEY (b, a) REFERENCES public.p (b, a) ON DELETE SET DEFAULT ON UPDATE RESTRICT INITIALLY DEFERRED,
x integer CONSTRAINT \"K k\" REFERENCES p (b) ON UPDATE SET DEFAULT INITIALLY IMMEDIATE NOT NULL);
ALTER TABLE ONLY c ADD CONSTRAINT u UNIQUE (x, a); ALTER TABLE c ADD FOREIGN KEY (x) REFERENCES p (b) ON DELETE RESTRICT DEFERRABLE;
---- 0
\\setup
CREATE TABLE p (a integer, b integer, PRIMARY KEY (a, b), UNIQUE (b));
CREATE TABLE c (a integer, b integer, FOREIGN KEY (a, b) REFERENCES p MATCH FULL ON DELETE SET NULL ON UPDATE CASCADE DEFERRABLE, CONSTRAINT k FOREIGN KEY (b) REFERENCES p (b), FOREIGN KEY (b, a) REFERENCES p (b, a) ON DELETE SET DEFAULT ON UPDATE RESTRICT DEFERRABLE INITIALLY DEFERRED, x integer CONSTRAINT \"K k\" REFERENCES p (b) ON UPDATE SET DEFAULT NOT NULL);
ALTER TABLE c ADD CONSTRAINT u UNIQUE (x, a);
ALTER TABLE c ADD FOREIGN KEY (x) REFERENCES p (b) ON DELETE RESTRICT DEFERRABLE;
==== check
\\setup
CREATE TABLE t (a integer PRIMARY KEY, b text);
CREATE FUNCTION f() RETURNS trigger LANGUAGE plpgsql AS $$ BEGIN IF NEW.a = 1 THEN RAISE EXCEPTION 'it''s'; ELSIF OLD.a IS NULL THEN RETURN OLD; ELSE SET CONSTRAINTS ALL DEFERRED; SET CONSTRAINTS x, \"Y\" IMMEDIATE; END IF; INSERT INTO t SELECT a, TG_OP FROM t WHERE b <> 'x'; UPDATE t SET b = DEFAULT, a = a + 1; DELETE FROM t WHERE t.a = NEW.a; RETURN NEW; END $$;
CREATE FUNCTION g() RETURNS trigger AS $$ BEGIN END; $$ LANGUAGE plpgsql;
CREATE TRIGGER a AFTER INSERT OR UPDATE OF a, b OR DELETE ON t FOR ROW EXECUTE PROCEDURE f();
CREATE TRIGGER b AFTER DELETE ON public.t REFERENCING OLD TABLE gone FOR EACH STATEMENT EXECUTE FUNCTION g();
CREATE TRIGGER c AFTER UPDATE ON t REFERENCING NEW TABLE AS fresh OLD TABLE gone EXECUTE FUNCTION g();
CREATE CONSTRAINT TRIGGER d AFTER UPDATE ON t INITIALLY DEFERRED FOR ROW WHEN (OLD.a <> NEW.a AND NOT NEW.b = 'x') EXECUTE FUNCTION public.g();
---- 0
\\setup
CREATE TABLE t (a integer PRIMARY KEY, b text);
CREATE FUNCTION f() RETURNS trigger LANGUAGE plpgsql AS $$ BEGIN IF NEW.a = 1 THEN RAISE EXCEPTION 'it''s'; ELSIF OLD.a IS NULL THEN RETURN OLD; ELSE SET CONSTRAINTS ALL DEFERRED; SET CONSTRAINTS x, \"Y\" IMMEDIATE; END IF; INSERT INTO t SELECT a, TG_OP FROM t WHERE b <> 'x'; UPDATE t SET b = DEFAULT, a = a + 1; DELETE FROM t WHERE t.a = NEW.a; RETURN NEW; END $$;
CREATE FUNCTION g() RETURNS trigger LANGUAGE plpgsql AS $$ BEGIN END $$;
CREATE TRIGGER a AFTER INSERT OR UPDATE OF a, b OR DELETE ON t FOR EACH ROW EXECUTE FUNCTION f();
CREATE TRIGGER b AFTER DELETE ON t REFERENCING OLD TABLE AS gone FOR EACH STATEMENT EXECUTE FUNCTION g();
CREATE TRIGGER c AFTER UPDATE ON t REFERENCING NEW TABLE AS fresh OLD TABLE AS gone FOR EACH STATEMENT EXECUTE FUNCTION g();
CREATE CONSTRAINT TRIGGER d AFTER UPDATE ON t DEFERRABLE INITIALLY DEFERRED FOR EACH ROW WHEN ((OLD.a <> NEW.a) AND (NOT (NEW.b = 'x'))) EXECUTE FUNCTION g();
==== check
\\session a
begin work; begin transaction isolation level read uncommitted; start transaction isolation level repeatable read; begin isolation level read committed; end; end work; commit transaction; abort; rollback work; rollback to s; rollback transaction to savepoint s; release savepoint s; release s; savepoint \"S\"; set constraints all immediate; set constraints public.a, b, \"C\" deferred;
---- 0
\\session a
BEGIN;
BEGIN;
START TRANSACTION ISOLATION LEVEL REPEATABLE READ;
BEGIN;
COMMIT;
COMMIT;
COMMIT;
ROLLBACK;
ROLLBACK;
ROLLBACK TO s;
ROLLBACK TO s;
RELEASE s;
RELEASE s;
SAVEPOINT \"S\";
SET CONSTRAINTS ALL IMMEDIATE;
SET CONSTRAINTS a, b, \"C\" DEFERRED;
==== check|replay
\\setup
CREATE TABLE p (id integer PRIMARY KEY, v text);
CREATE TABLE c (
  pid text REFERENCES p (v)
);
---- 2
aqueue: line 3: 42830 there is no unique constraint matching given keys for referenced table \"p\"
==== check|replay
\\setup CREATE TABLE t (id integer);

CREATE TRIGGER x AFTER INSERT ON t FOR EACH ROW EXECUTE FUNCTION native_ordered();
---- 2
aqueue: line 3: 42883 function native_ordered() does not exist
==== check|replay
\\setup CREATE TABLE t (id integer, id text REFERENCES q (a, b));
---- 2
aqueue: line 1: 42701 column \"id\" specified more than once
==== check|replay
\\setup CREATE TABLE t (a integer, UNIQUE (a), UNIQUE (a));
ALTER TABLE t ADD UNIQUE (a);
ALTER TABLE t ADD CONSTRAINT t_a_key2 UNIQUE (a);
---- 2
aqueue: line 3: 42710 constraint \"t_a_key2\" for relation \"t\" already exists
==== replay
\\setup CREATE TABLE node (id integer PRIMARY KEY, up integer REFERENCES node);
\\session a INSERT INTO node VALUES (1, NULL), (2, 1); DELETE FROM node;
---- 0
a.1: INSERT 0 2
a.2: DELETE 2
table node (id, up)
schedule a*19
==== replay
\\setup CREATE TABLE Zed (\"a\"\"b\" integer PRIMARY KEY, \"--\" integer REFERENCES zed, X$ integer);
\\session a INSERT INTO zed VALUES (1, 2, 5); DELETE FROM \"zed\";
---- 0
a.1: ERROR 23503 insert or update on table \"zed\" violates foreign key constraint \"zed_--_fkey\"
a.1: DETAIL Key (--)=(2) is not present in table \"zed\".
a.2: DELETE 0
table zed (\"a\"\"b\", \"--\", x$)
schedule a*10
==== replay
\\setup CREATE TABLE p (id integer PRIMARY KEY); CREATE TABLE c (pid integer REFERENCES p DEFERRABLE INITIALLY DEFERRED);
\\session a BEGIN; INSERT INTO c VALUES (1); INSERT INTO p VALUES (1); COMMIT; BEGIN; INSERT INTO c VALUES (9); COMMIT;
---- 0
a.1: BEGIN
a.2: INSERT 0 1
a.3: INSERT 0 1
a.4: COMMIT
a.5: BEGIN
a.6: INSERT 0 1
a.7: ERROR 23503 insert or update on table \"c\" violates foreign key constraint \"c_pid_fkey\"
a.7: DETAIL Key (pid)=(9) is not present in table \"p\".
table p (id)
(1)
table c (pid)
(1)
schedule a*22
==== replay
\\setup CREATE TABLE p (id integer PRIMARY KEY); CREATE TABLE c (pid integer REFERENCES p DEFERRABLE INITIALLY DEFERRED);
\\session a BEGIN; INSERT INTO c VALUES (7); DELETE FROM c; COMMIT;
---- 0
a.1: BEGIN
a.2: INSERT 0 1
a.3: DELETE 1
a.4: COMMIT
table p (id)
table c (pid)
schedule a*14
==== replay
\\setup CREATE TABLE p (id integer PRIMARY KEY);
\\session a COMMIT; BEGIN; BEGIN; INSERT INTO p VALUES (1); INSERT INTO p VALUES (1); DELETE FROM p; ROLLBACK; ROLLBACK;
---- 0
a.1: WARNING 25P01 there is no transaction in progress
a.1: COMMIT
a.2: BEGIN
a.3: WARNING 25001 there is already a transaction in progress
a.3: BEGIN
a.4: INSERT 0 1
a.5: ERROR 23505 duplicate key value violates unique constraint \"p_pkey\"
a.5: DETAIL Key (id)=(1) already exists.
a.6: ERROR 25P02 current transaction is aborted, commands ignored until end of transaction block
a.7: ROLLBACK
a.8: WARNING 25P01 there is no transaction in progress
a.8: ROLLBACK
table p (id)
schedule a*13
==== replay
\\setup CREATE TABLE p (id integer PRIMARY KEY); CREATE TABLE c (pid integer REFERENCES p );
\\session a INSERT INTO p VALUES (1); INSERT INTO c VALUES (1); DELETE FROM p; INSERT INTO p VALUES (NULL);
---- 0
a.1: INSERT 0 1
a.2: INSERT 0 1
a.3: ERROR 23503 update or delete on table \"p\" violates foreign key constraint \"c_pid_fkey\" on table \"c\"
a.3: DETAIL Key (id)=(1) is still referenced from table \"c\".
a.4: ERROR 23502 null value in column \"id\" of relation \"p\" violates not-null constraint
a.4: DETAIL Failing row contains (null).
table p (id)
(1)
table c (pid)
(1)
schedule a*20
==== check
\\session a
SELECT * FROM t WHERE 1 + 1 + 1 + 1 + 1 + 1 + 1 + 1 + 1 + 1 + 1 + 1 + 1 + 1 + 1 + 1 + 1 + 1 + 1 + 1 + 1 + 1 + 1 + 1 + 1 + 1 + 1 + 1 \
+ 1 + 1 + 1 + 1 + 1 + 1 + 1 + 1 + 1 + 1 + 1 + 1 + 1 + 1 + 1 + 1 + 1 + 1 + 1 + 1 + 1 + 1 + 1 + 1 + 1 + 1 + 1 + \
1 + 1 + 1 + 1 + 1 + 1 + 1 + 1 + 1 + 1 + 1 + 1 + 1 + 1 + 1 + 1 + 1 + 1 + 1 + 1 + 1 + 1 + 1 + 1 + 1 + 1 + 1 + 1 \
+ 1 + 1 + 1 + 1 + 1 + 1 + 1 + 1 + 1 + 1 + 1 + 1 + 1 + 1 + 1 + 1 + 1 + 1 + 1 + 1 + 1 + 1 + 1 + 1 + 1 + 1 + 1 + \
1 + 1 + 1 + 1 + 1 + 1 + 1 + 1 + 1 + 1 + 1 + 1 + 1 + 1 + 1 + 1 + 1 + 1 + 1 + 1 + 1 + 1 + 1 + 1 + 1 + 1 + 1 + 1 \
+ 1 + 1 + 1 + 1 + 1 + 1 + 1 + 1 + 1 + 1 + 1 + 1 + 1 + 1 + 1 + 1 + 1 + 1 + 1 + 1 + 1 + 1 + 1 + 1 + 1 + 1 + 1 + \
1 + 1 + 1 + 1 + 1 + 1 + 1 + 1 + 1 + 1 + 1 + 1 + 1 + 1 + 1 + 1 + 1 + 1 + 1 + 1 + 1 + 1 + 1 + 1 + 1 + 1 + 1 + 1 \
+ 1 + 1 + 1 + 1 + 1 + 1 + 1 + 1 + 1 + 1 + 1 + 1 + 1 + 1 + 1 + 1 + 1 + 1 + 1 + 1 + 1 + 1 + 1 + 1 + 1 + 1 + 1 + \
1 + 1 + 1 + 1 + 1 + 1 + 1 + 1 + 1 + 1 + 1 + 1 + 1 + 1 + 1 + 1 + 1 + 1 + 1 + 1 + 1 + 1 + 1 + 1 + 1 + 1 + 1 + 1 \
+ 1 + 1 + 1 + 1 + 1 + 1 + 1 + 1 + 1 + 1 + 1 + 1 + 1 + 1 + 1 + 1 + 1 + 1 + 1 + 1 + 1 + 1 + 1 + 1 + 1 + 1 + 1 + \
1 + 1 + 1 + 1 + 1 + 1 + 1 + 1 + 1 + 1 + 1 + 1 + 1 + 1 + 1 + 1 + 1 + 1 + 1 + 1 + 1 + 1 + 1 + 1 + 1 + 1 + 1 + 1 \
+ 1 + 1 + 1 + 1 + 1 + 1 + 1 + 1 + 1 + 1 + 1 + 1 + 1 + 1 + 1 + 1 + 1 + 1 + 1 + 1 + 1 + 1 + 1 + 1 + 1 + 1 + 1 + \
1 + 1 + 1 + 1 + 1 + 1 + 1 + 1 + 1 + 1 + 1 + 1 + 1 + 1 + 1 + 1 + 1 + 1 + 1 + 1 + 1 + 1 + 1 + 1 + 1 + 1 + 1 + 1 \
+ 1 + 1 + 1 + 1 + 1 + 1 + 1 + 1 + 1 + 1 + 1 + 1 + 1 + 1 + 1 + 1 + 1 + 1 + 1 + 1 + 1 + 1 + 1 + 1 + 1 + 1 + 1 + \
1 + 1 + 1 + 1 + 1 + 1 + 1 + 1 + 1 + 1 + 1 + 1 + 1 + 1 + 1 + 1 + 1 + 1 + 1 + 1 + 1 + 1 + 1 + 1 + 1 + 1 + 1 + 1 \
+ 1 + 1 + 1 + 1 + 1 + 1 + 1 + 1 + 1 + 1 + 1 + 1 + 1 + 1 + 1 + 1 + 1 + 1 + 1 + 1 + 1 + 1 + 1 + 1 + 1 + 1 + 1 + \
1 + 1 + 1 + 1 + 1 + 1 + 1 + 1 + 1 + 1 + 1 + 1 + 1 + 1 + 1 + 1 + 1 + 1 + 1 + 1 + 1 + 1 + 1 + 1 + 1 + 1 + 1 + 1 \
+ 1 + 1 + 1 + 1 + 1 + 1 + 1 + 1 + 1 + 1 + 1 + 1 + 1 + 1 + 1 + 1 + 1 + 1 + 1 + 1 + 1 + 1 + 1 + 1 + 1 + 1 + 1 + \
1 + 1 + 1 + 1 + 1;
---- 0
\\session a
SELECT * FROM t WHERE ((((((((((((((((((((((((((((((((((((((((((((((((((((((((((((((((((((((((((((((((((((((((((((((((((((\
((((((((((((((((((((((((((((((((((((((((((((((((((((((((((((((((((((((((((((((((((((((((((((((((((((\
((((((((((((((((((((((((((((((((((((((((((((((((((((((((((((((((((((((((((((((((((((((((((((((((((((\
((((((((((((((((((((((((((((((((((((((((((((((((((((((((((((((((((((((((((((((((((((((((((((((((((((\
((((((((((((((((((((((((((((((((((((((((((((((((((((((((((((((((((((((((((((((((((((((((((((((((((1 + 1) + 1) + 1) + 1) + 1) + 1) + 1) + 1) + 1) + 1) + 1) + 1) + 1) + 1) + 1) + 1) + 1) + 1) + 1) + 1) + 1) + \
1) + 1) + 1) + 1) + 1) + 1) + 1) + 1) + 1) + 1) + 1) + 1) + 1) + 1) + 1) + 1) + 1) + 1) + 1) + 1) + 1) + 1) + \
1) + 1) + 1) + 1) + 1) + 1) + 1) + 1) + 1) + 1) + 1) + 1) + 1) + 1) + 1) + 1) + 1) + 1) + 1) + 1) + 1) + 1) + \
1) + 1) + 1) + 1) + 1) + 1) + 1) + 1) + 1) + 1) + 1) + 1) + 1) + 1) + 1) + 1) + 1) + 1) + 1) + 1) + 1) + 1) + \
1) + 1) + 1) + 1) + 1) + 1) + 1) + 1) + 1) + 1) + 1) + 1) + 1) + 1) + 1) + 1) + 1) + 1) + 1) + 1) + 1) + 1) + \
1) + 1) + 1) + 1) + 1) + 1) + 1) + 1) + 1) + 1) + 1) + 1) + 1) + 1) + 1) + 1) + 1) + 1) + 1) + 1) + 1) + 1) + \
1) + 1) + 1) + 1) + 1) + 1) + 1) + 1) + 1) + 1) + 1) + 1) + 1) + 1) + 1) + 1) + 1) + 1) + 1) + 1) + 1) + 1) + \
1) + 1) + 1) + 1) + 1) + 1) + 1) + 1) + 1) + 1) + 1) + 1) + 1) + 1) + 1) + 1) + 1) + 1) + 1) + 1) + 1) + 1) + \
1) + 1) + 1) + 1) + 1) + 1) + 1) + 1) + 1) + 1) + 1) + 1) + 1) + 1) + 1) + 1) + 1) + 1) + 1) + 1) + 1) + 1) + \
1) + 1) + 1) + 1) + 1) + 1) + 1) + 1) + 1) + 1) + 1) + 1) + 1) + 1) + 1) + 1) + 1) + 1) + 1) + 1) + 1) + 1) + \
1) + 1) + 1) + 1) + 1) + 1) + 1) + 1) + 1) + 1) + 1) + 1) + 1) + 1) + 1) + 1) + 1) + 1) + 1) + 1) + 1) + 1) + \
1) + 1) + 1) + 1) + 1) + 1) + 1) + 1) + 1) + 1) + 1) + 1) + 1) + 1) + 1) + 1) + 1) + 1) + 1) + 1) + 1) + 1) + \
1) + 1) + 1) + 1) + 1) + 1) + 1) + 1) + 1) + 1) + 1) + 1) + 1) + 1) + 1) + 1) + 1) + 1) + 1) + 1) + 1) + 1) + \
1) + 1) + 1) + 1) + 1) + 1) + 1) + 1) + 1) + 1) + 1) + 1) + 1) + 1) + 1) + 1) + 1) + 1) + 1) + 1) + 1) + 1) + \
1) + 1) + 1) + 1) + 1) + 1) + 1) + 1) + 1) + 1) + 1) + 1) + 1) + 1) + 1) + 1) + 1) + 1) + 1) + 1) + 1) + 1) + \
1) + 1) + 1) + 1) + 1) + 1) + 1) + 1) + 1) + 1) + 1) + 1) + 1) + 1) + 1) + 1) + 1) + 1) + 1) + 1) + 1) + 1) + \
1) + 1) + 1) + 1) + 1) + 1) + 1) + 1) + 1) + 1) + 1) + 1) + 1) + 1) + 1) + 1) + 1) + 1) + 1) + 1) + 1) + 1) + \
1) + 1) + 1) + 1) + 1) + 1) + 1) + 1) + 1) + 1) + 1) + 1) + 1) + 1) + 1) + 1) + 1) + 1) + 1) + 1) + 1) + 1) + \
1) + 1) + 1) + 1) + 1) + 1) + 1) + 1) + 1) + 1) + 1) + 1) + 1) + 1) + 1) + 1) + 1) + 1) + 1) + 1) + 1) + 1) + \
1) + 1) + 1) + 1) + 1) + 1) + 1) + 1) + 1) + 1) + 1) + 1) + 1) + 1) + 1) + 1) + 1) + 1) + 1) + 1) + 1) + 1) + \
1) + 1) + 1) + 1) + 1) + 1) + 1) + 1) + 1) + 1) + 1) + 1) + 1) + 1) + 1) + 1) + 1) + 1) + 1) + 1) + 1) + 1) + \
1) + 1) + 1) + 1) + 1) + 1) + 1) + 1) + 1) + 1) + 1) + 1) + 1) + 1) + 1) + 1) + 1) + 1) + 1) + 1) + 1) + 1) + \
1) + 1) + 1) + 1) + 1) + 1) + 1) + 1) + 1) + 1) + 1) + 1) + 1) + 1) + 1) + 1;
==== check
\\session a
SELECT * FROM t WHERE 1 + 1 + 1 + 1 + 1 + 1 + 1 + 1 + 1 + 1 + 1 + 1 + 1 + 1 + 1 + 1 + 1 + 1 + 1 + 1 + 1 + 1 + 1 + 1 + 1 + 1 + 1 + 1 \
+ 1 + 1 + 1 + 1 + 1 + 1 + 1 + 1 + 1 + 1 + 1 + 1 + 1 + 1 + 1 + 1 + 1 + 1 + 1 + 1 + 1 + 1 + 1 + 1 + 1 + 1 + 1 + \
1 + 1 + 1 + 1 + 1 + 1 + 1 + 1 + 1 + 1 + 1 + 1 + 1 + 1 + 1 + 1 + 1 + 1 + 1 + 1 + 1 + 1 + 1 + 1 + 1 + 1 + 1 + 1 \
+ 1 + 1 + 1 + 1 + 1 + 1 + 1 + 1 + 1 + 1 + 1 + 1 + 1 + 1 + 1 + 1 + 1 + 1 + 1 + 1 + 1 + 1 + 1 + 1 + 1 + 1 + 1 + \
1 + 1 + 1 + 1 + 1 + 1 + 1 + 1 + 1 + 1 + 1 + 1 + 1 + 1 + 1 + 1 + 1 + 1 + 1 + 1 + 1 + 1 + 1 + 1 + 1 + 1 + 1 + 1 \
+ 1 + 1 + 1 + 1 + 1 + 1 + 1 + 1 + 1 + 1 + 1 + 1 + 1 + 1 + 1 + 1 + 1 + 1 + 1 + 1 + 1 + 1 + 1 + 1 + 1 + 1 + 1 + \
1 + 1 + 1 + 1 + 1 + 1 + 1 + 1 + 1 + 1 + 1 + 1 + 1 + 1 + 1 + 1 + 1 + 1 + 1 + 1 + 1 + 1 + 1 + 1 + 1 + 1 + 1 + 1 \
+ 1 + 1 + 1 + 1 + 1 + 1 + 1 + 1 + 1 + 1 + 1 + 1 + 1 + 1 + 1 + 1 + 1 + 1 + 1 + 1 + 1 + 1 + 1 + 1 + 1 + 1 + 1 + \
1 + 1 + 1 + 1 + 1 + 1 + 1 + 1 + 1 + 1 + 1 + 1 + 1 + 1 + 1 + 1 + 1 + 1 + 1 + 1 + 1 + 1 + 1 + 1 + 1 + 1 + 1 + 1 \
+ 1 + 1 + 1 + 1 + 1 + 1 + 1 + 1 + 1 + 1 + 1 + 1 + 1 + 1 + 1 + 1 + 1 + 1 + 1 + 1 + 1 + 1 + 1 + 1 + 1 + 1 + 1 + \
1 + 1 + 1 + 1 + 1 + 1 + 1 + 1 + 1 + 1 + 1 + 1 + 1 + 1 + 1 + 1 + 1 + 1 + 1 + 1 + 1 + 1 + 1 + 1 + 1 + 1 + 1 + 1 \
+ 1 + 1 + 1 + 1 + 1 + 1 + 1 + 1 + 1 + 1 + 1 + 1 + 1 + 1 + 1 + 1 + 1 + 1 + 1 + 1 + 1 + 1 + 1 + 1 + 1 + 1 + 1 + \
1 + 1 + 1 + 1 + 1 + 1 + 1 + 1 + 1 + 1 + 1 + 1 + 1 + 1 + 1 + 1 + 1 + 1 + 1 + 1 + 1 + 1 + 1 + 1 + 1 + 1 + 1 + 1 \
+ 1 + 1 + 1 + 1 + 1 + 1 + 1 + 1 + 1 + 1 + 1 + 1 + 1 + 1 + 1 + 1 + 1 + 1 + 1 + 1 + 1 + 1 + 1 + 1 + 1 + 1 + 1 + \
1 + 1 + 1 + 1 + 1 + 1 + 1 + 1 + 1 + 1 + 1 + 1 + 1 + 1 + 1 + 1 + 1 + 1 + 1 + 1 + 1 + 1 + 1 + 1 + 1 + 1 + 1 + 1 \
+ 1 + 1 + 1 + 1 + 1 + 1 + 1 + 1 + 1 + 1 + 1 + 1 + 1 + 1 + 1 + 1 + 1 + 1 + 1 + 1 + 1 + 1 + 1 + 1 + 1 + 1 + 1 + \
1 + 1 + 1 + 1 + 1 + 1 + 1 + 1 + 1 + 1 + 1 + 1 + 1 + 1 + 1 + 1 + 1 + 1 + 1 + 1 + 1 + 1 + 1 + 1 + 1 + 1 + 1 + 1 \
+ 1 + 1 + 1 + 1 + 1 + 1 + 1 + 1 + 1 + 1 + 1 + 1 + 1 + 1 + 1 + 1 + 1 + 1 + 1 + 1 + 1 + 1 + 1 + 1 + 1 + 1 + 1 + \
1 + 1 + 1 + 1 + 1 + 1;
---- 2
aqueue: line 2: 54000 expression limit of 1000 tokens reached
";
